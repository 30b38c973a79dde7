// The values that travel by value: ids, parameters, the records that stand in a domain's words, and the states and paths with their
// numbers; a word as an index, and where things stand.
#![tactic(auto)]

pub mod fresh;
pub mod words;

ghost use Rattle.std.specs.Prelude.{◌≡◌, ◌<◌, ◌≤◌};
ghost use Rattle.model.specs.Params.{most_processes, most_hazards, most_nodes};
ghost use Rattle.layout.specs.Shape.{process_width, process_start};
ghost use Rattle.layout.specs.Encode.{shape};
ghost use Rattle.layout.specs.Pairs.{word_range, paired};
ghost use Rattle.layout.specs.Values.{state_number, path_number};

use words::{hazard_word, head_word, lead_word, most, node_word};

// A process (the paper's worker), a hazard of a process (slot) and a node (card), each counted from 0.
#[derive(Clone, Copy)]
pub struct ProcessId(pub u32);

#[derive(Clone, Copy)]
pub struct HazardId(pub u32);

#[derive(Clone, Copy)]
pub struct NodeId(pub u32);

// The five numbers of a step: any will do.
#[derive(Clone, Copy)]
pub struct Step {
    pub kind: u32,
    pub process: ProcessId,
    pub hazard: HazardId,
    pub node: NodeId,
    pub guest: u32,
}

// N, K, M, T, Q, C and E.
#[derive(Clone, Copy)]
pub struct Params {
    pub processes: u32,
    pub hazards: u32,
    pub nodes: u32,
    pub visibility: u32,
    pub quiescence: u32,
    pub fallback: u32,
    pub lateness: u32,
}

// The words of a process before its hazards; stores: how many are pending; present: 1 where it takes part, 0 where it is absent.
#[derive(Clone, Copy)]
pub struct Lead {
    pub epoch: u32,
    pub calls: u32,
    pub presence: u32,
    pub stores: u32,
    pub present: u32,
}

#[derive(Clone, Copy)]
pub struct Hazard {
    pub visible: u32,
    pub assigned: u32,
    pub validated: u32,
}

// retired: the clock when it was retired.
#[derive(Clone, Copy)]
pub struct Node {
    pub state: u32,
    pub owner: u32,
    pub guest: u32,
    pub retired: u32,
    pub limbo: u32,
}

// The five states of a node. A node's words may say any number, so the code compares numbers.
#[derive(Clone, Copy, Debug, PartialEq, Eq)]
pub enum State {
    Free = 0,
    Allocated = 1,
    Reachable = 2,
    Removed = 3,
    Retired = 4,
}

impl From<State> for u32 {
    ghost from_gives = { λ s n. n ≡ state_number s };

    fn from(state: State) -> u32 {
        state as u32
    }
}

// The two paths.
#[derive(Clone, Copy, Debug, PartialEq, Eq)]
pub enum Path {
    Fast = 0,
    Fallback = 1,
}

impl From<Path> for u32 {
    ghost from_gives = { λ p n. n ≡ path_number p };

    fn from(path: Path) -> u32 {
        path as u32
    }
}

// A word as an index, with the bound that keeps sums of such from wrapping.
pub fn wide(x: u32) -> usize
    ensures { (result ≡ x) × (result < word_range) }
{
    x as usize
}

// Two words as one number.
pub fn pair(low: u32, high: u32) -> usize
    ensures { (result ≡ paired low high) × (low < word_range) }
{
    wide(low) + wide(high) * 4294967296
}

// The words of a process with k hazards.
pub fn process_width(k: usize) -> usize
    requires { k ≤ most_hazards }
    ensures { result ≡ process_width shape k }
{
    lead_word::WIDTH + most::BUFFER + hazard_word::WIDTH * k
}

// Where process p starts, with k hazards a process; of the number of processes, where the nodes start.
pub fn process_start(k: u32, p: u32) -> usize
    requires { (k ≤ most_hazards) × (p ≤ most_processes) }
    ensures { (result ≡ process_start shape k p) × (result ≤ process_start shape most_hazards most_processes) }
{
    head_word::WIDTH + wide(p) * process_width(wide(k))
}

// The words of m nodes.
pub fn nodes_width(m: u32) -> usize
    requires { m ≤ most_nodes }
    ensures { result ≡ shape.nodes.width m }
{
    node_word::WIDTH * wide(m)
}
