// The answer of read enabled and of find, and the six words beside it: those of the block, or zeros.
use crate::refusals::Answer;

// "beside it six words: number, start, end, rights, use, child"
pub const TOLD_WORDS: usize = 6;

// The words are zeros beside a refusal too, as told of block_rules says, so that they stand beside the answer and not in it.
#[derive(Clone, Copy)]
pub struct Told {
    pub answer: Answer,
    pub words: [u32; TOLD_WORDS],
}
