// What a machine is set up with.
#[derive(Clone, Copy, PartialEq, Eq, Debug)]
pub struct Settings {
    // 2 to 8
    pub threads: usize,
    // hazard cells of each thread, 1 to 4
    pub hazards: usize,
    // 1 to 8
    pub roots: usize,
    // 1 to 64, numbered from 1
    pub nodes: usize,
    // places of each retire list: more than all hazard cells, at most 48
    pub places: usize,
}
