// The bytes that a print takes at the most, by the bytes of its book: a step's line for each 12 bytes, beside the first and the last line.
use replay::most::{END_LINE, PARAMS_LINE, STEP_LINE};
use trace::widths::{most, params_byte, step_byte, trailer_byte};

// Of any book.
pub const PRINT: usize = PARAMS_LINE + STEP_LINE * most::STEPS + END_LINE;

// A short book, and its print: most books need no more.
pub const SHORT_BOOK: usize = 4096;

const SHORT_STEPS: usize = (SHORT_BOOK - params_byte::WIDTH - trailer_byte::WIDTH)
    / step_byte::WIDTH;

pub const SHORT_PRINT: usize = PARAMS_LINE + STEP_LINE * SHORT_STEPS + END_LINE;
