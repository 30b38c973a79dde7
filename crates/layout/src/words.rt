// The words of a domain: the number of each word in its row, the words of a row, and how many there may be of each thing. The one place
// in code that knows them; the rules have theirs in `model` Params, and the specs in Shape.

// The head, before the processes: N, K, M, T, Q, C and E, the clock, the path, the global epoch.
pub mod head_word {
    pub const PROCESSES: usize = 0;

    pub const HAZARDS: usize = 1;

    pub const NODES: usize = 2;

    pub const VISIBILITY: usize = 3;

    pub const QUIESCENCE: usize = 4;

    pub const FALLBACK: usize = 5;

    pub const LATENESS: usize = 6;

    pub const CLOCK: usize = 7;

    pub const PATH: usize = 8;

    pub const EPOCH: usize = 9;

    pub const WIDTH: usize = 10;
}

// The lead of a process, before its hazards: local epoch, calls, presence, how many stores are pending, whether it is present.
pub mod lead_word {
    pub const EPOCH: usize = 0;

    pub const CALLS: usize = 1;

    pub const PRESENCE: usize = 2;

    pub const STORES: usize = 3;

    pub const PRESENT: usize = 4;

    pub const WIDTH: usize = 5;
}

// A hazard: visible and assigned node, validated.
pub mod hazard_word {
    pub const VISIBLE: usize = 0;

    pub const ASSIGNED: usize = 1;

    pub const VALIDATED: usize = 2;

    pub const WIDTH: usize = 3;
}

// A pending store: hazard, stored node, time.
pub mod store_word {
    pub const HAZARD: usize = 0;

    pub const NODE: usize = 1;

    pub const TIME: usize = 2;

    pub const WIDTH: usize = 3;
}

// A node: state, owner, guest, when it was retired, limbo list.
pub mod node_word {
    pub const STATE: usize = 0;

    pub const OWNER: usize = 1;

    pub const GUEST: usize = 2;

    pub const RETIRED: usize = 3;

    pub const LIMBO: usize = 4;

    pub const WIDTH: usize = 5;
}

// A step of a list of steps, and an answer of a list of answers (crate `runs`).
pub mod step_word {
    pub const KIND: usize = 0;

    pub const PROCESS: usize = 1;

    pub const HAZARD: usize = 2;

    pub const NODE: usize = 3;

    pub const GUEST: usize = 4;

    pub const WIDTH: usize = 5;
}

pub mod answer_word {
    pub const REFUSAL: usize = 0;

    pub const VALUE: usize = 1;

    pub const WIDTH: usize = 2;
}

// The most of each.
pub mod most {
    // N, K, M, T, Q and C, each from 1 on, and E, from 0 on: the ranges of documents 01 and 02.
    pub const PROCESSES: u32 = 16;

    pub const HAZARDS: u32 = 8;

    pub const NODES: u32 = 256;

    pub const VISIBILITY: u32 = 1000;

    pub const QUIESCENCE: u32 = 1000;

    pub const FALLBACK: u32 = 256;

    pub const LATENESS: u32 = 1000;

    // The states of a node.
    pub const STATES: usize = 5;

    // Epochs go round from 0 to 2; how many there are.
    pub const EPOCH: u32 = 2;

    pub const EPOCHS: u32 = 3;

    // The most nodes that a portion of a scan may be told to examine.
    pub const EXAMINED: u32 = 256;

    // The largest word, at which the clock stops.
    pub const CLOCK: u32 = 4294967295;

    // Pending stores of a process, and the words of all their places.
    pub const STORES: u32 = 8;

    pub const BUFFER: usize = 24;

    // The words of a domain with the most of each.
    pub const WORDS: usize = crate::words::head_word::WIDTH
        + (PROCESSES as usize)
            * (crate::words::lead_word::WIDTH
                + BUFFER
                + crate::words::hazard_word::WIDTH * (HAZARDS as usize))
        + crate::words::node_word::WIDTH * (NODES as usize);

    // A process's own view of its hazards: a number for each.
    pub const VIEW: usize = 8;

    // Marks of nodes: one for each number that a hazard may hold, a node + 1 or 0 for none.
    pub const MARKS: usize = 257;
}
