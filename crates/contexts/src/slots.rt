// The words of a slot page: "four 64-byte slots: eip, pipflags, eflags, eight registers, valid (1; else none), then padding that stays".
ghost use Rattle.std.specs.Prelude.{◌≡◌, ◌+◌, ◌*◌, ◌≤◌, eqb, length};
ghost use Rattle.memory.specs.Words;
ghost use Rattle.memory.specs.Words.{tabulate, word, put, overwrite};
ghost use Rattle.memory.specs.Contexts.{most_slot, slot_words, saved_words, valid_place};

use pages::{IndexWidth, PhysicalPage};

// The slots are numbered 0 to 3, and each has 16 words.
pub const MOST_SLOT: u32 = 3;

const SLOT_WORDS: u32 = 16;

// The words that are saved: eip, pipflags, eflags, eight registers.
pub const SAVED_WORDS: usize = 11;

// Where pipflags and valid stand in a slot.
pub const PIPFLAGS_PLACE: usize = 1;

const VALID_PLACE: u32 = 11;

// The slot of a partition that notified its child, and of one that notified its parent.
pub const TO_CHILD_SLOT: u32 = 2;

pub const TO_PARENT_SLOT: u32 = 3;

// A slot of a slot page. That its number is one stands in the type.
#[derive(Clone, Copy)]
pub struct Slot {
    pub page: PhysicalPage,
    pub number: u32,
    pub ghost known: { number ≤ most_slot },
}

impl Slot {
    // "valid (1; else none)".
    pub fn valid(self, b: IndexWidth, m: &[u32]) -> bool
        ensures { result ≡ eqb (word b.bits m.now self.page.0 (slot_words * self.number + valid_place)) 1 }
    {
        pages::read_word(b, m, self.page, SLOT_WORDS * self.number + VALID_PLACE) == 1
    }

    // "the saved words".
    pub fn saved(self, b: IndexWidth, m: &[u32]) -> [u32; SAVED_WORDS]
        ensures { result ≡ tabulate 0 saved_words (λ i. word b.bits m.now self.page.0 (slot_words * self.number + i)) }
    {
        let mut words = [0; SAVED_WORDS];
        moves::save(
            b,
            m,
            self.page,
            SLOT_WORDS * self.number,
            SAVED_WORDS as u32,
            &mut words,
        );
        words
    }

    // The words ws stand at the start of the slot.
    pub fn save(self, b: IndexWidth, m: &mut [u32], ws: &[u32])
        requires fits { length ws.now ≤ slot_words }
        ensures { m.new ≡ overwrite m.old (Words.index b.bits self.page.0 (slot_words * self.number)) ws.now }
    {
        pages::put_words(m, pages::index(b, self.page, SLOT_WORDS * self.number), ws);
    }

    // "clears valid".
    pub fn clear_valid(self, b: IndexWidth, m: &mut [u32])
        ensures { m.new ≡ put b.bits m.old self.page.0 (slot_words * self.number + valid_place) 0 }
    {
        pages::write_word(b, m, self.page, SLOT_WORDS * self.number + VALID_PLACE, 0);
    }
}
