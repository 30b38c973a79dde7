// The most bytes of a print, line by line: digits, and a byte after each number. specs/Most.antt has the same for the definitions.

// `desk` and N, K, M, T, Q, C and E in 2, 1, 3, 4, 4, 3 and 4 digits.
pub const PARAMS_LINE: usize = 33;

// Its number in 4 digits, its kind in 3, its refusal in 2, its value in 10, and the reachable count in 3.
pub const STEP_LINE: usize = 27;

// `end` and the clock in 10 digits, the path in 1, the reachable count in 3.
pub const END_LINE: usize = 21;
