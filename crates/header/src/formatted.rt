// What format leaves: the words of the root's descriptor, directory, shadows and list.
ghost use Rattle.std.specs.Prelude.{◌≡◌, ◌+◌, ◌*◌, ◌<◌};
ghost use Rattle.memory.specs.Geometry.{threes_for};
ghost use Rattle.memory.specs.Format.{root_descriptor_word, root_directory_word, root_list_word};

use pages::{IndexWidth, PhysicalPage, address, threes_for};

// How many pages a memory has, and how many threes format makes of them.
#[derive(Clone, Copy)]
pub struct Sizes {
    pub width: IndexWidth,
    pub pages: u32,
    pub threes: u32,
    pub ghost counted: { threes ≡ threes_for width.bits pages },
    pub ghost fits: { threes < 67108864 },
}

impl Sizes {
    pub fn of(b: IndexWidth, n: u32) -> Sizes
        ensures { (result.width.bits ≡ b.bits) × (result.pages ≡ n) }
    {
        Sizes {
            width: b,
            pages: n,
            threes: threes_for(b, n),
        }
    }

    // "The root's virtual addresses in descriptor and list are 0, its parent 0."
    pub fn root_descriptor_word(&self, i: u32) -> u32
        ensures { result ≡ root_descriptor_word self.now.width.bits i }
    {
        if 10 <= i {
            return 0;
        }
        if i % 2 == 0 {
            return 0;
        }
        address(self.width, PhysicalPage(i / 2 + 1))
    }

    // "a table's physical address + 1": k is 0 for the directory, 1 and 2 for the shadows.
    pub fn root_directory_word(&self, k: u32, i: u32) -> u32
        requires sizes { (k < 3) × (i < 1024) }
        ensures { result ≡ root_directory_word self.now.width.bits self.now.pages k i }
    {
        if i < self.threes {
            return address(self.width, PhysicalPage(6 + 3 * i + k)) + 1;
        }
        0
    }

    // "word 0 first free word index, 1+6n with n threes; then pairs (virtual in parent, physical)"
    pub fn root_list_word(&self, i: u32) -> u32
        requires sizes { i < 1024 }
        ensures { result ≡ root_list_word self.now.width.bits self.now.pages i }
    {
        if i == 0 {
            return 1 + 6 * self.threes;
        }
        if i % 2 != 0 {
            return 0;
        }
        if 6 * self.threes < i {
            return 0;
        }
        address(self.width, PhysicalPage(5 + i / 2))
    }
}
