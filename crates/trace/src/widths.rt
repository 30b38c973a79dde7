// Where things stand in a trace, in bytes, and the most bytes that one may have. The one place in code that knows them; the definitions
// have theirs in specs/Widths.antt.

// A number of 32 bits, and the mark.
pub const WORD: usize = 4;

// The seven parameters, a word each: N, K, M, T, Q, C and E.
pub mod params_byte {
    pub const PROCESSES: usize = 0;

    pub const HAZARDS: usize = 4;

    pub const NODES: usize = 8;

    pub const VISIBILITY: usize = 12;

    pub const QUIESCENCE: usize = 16;

    pub const FALLBACK: usize = 20;

    pub const LATENESS: usize = 24;

    pub const WIDTH: usize = 28;
}

// A step: kind, process and hazard a byte each, a byte that is not read, node and guest a word each.
pub mod step_byte {
    pub const KIND: usize = 0;

    pub const PROCESS: usize = 1;

    pub const HAZARD: usize = 2;

    pub const NODE: usize = 4;

    pub const GUEST: usize = 8;

    pub const WIDTH: usize = 12;
}

// The trailer: the count of the steps and the distance back to the parameters, a word each, and the mark.
pub mod trailer_byte {
    pub const COUNT: usize = 0;

    pub const DISTANCE: usize = 4;

    pub const MARK: usize = 8;

    pub const WIDTH: usize = 12;
}

// The most bytes of a trace, of what is read to see that there are more, and the most steps in so many bytes.
pub mod most {
    pub const BYTES: usize = 65536;

    pub const READ: usize = 65537;

    pub const STEPS: usize = 5458;
}
