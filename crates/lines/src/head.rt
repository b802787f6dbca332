// What the first line of a listing says.
ghost use Rattle.lines.specs.Kind.{Names};

use protocol::settings::Settings;

#[derive(Clone, Copy, PartialEq, Eq, Debug)]
pub struct Head {
    // which memory, by its number; a number of none is well formed too
    pub memory: usize,
    // the limit of a layer
    pub limit: u32,
    pub settings: Settings,
    // the bound of the memory
    pub bound: u32,
}

// Which memory a machine runs on.
#[derive(Clone, Copy, PartialEq, Eq, Debug)]
pub enum MemoryKind {
    Held,
    Immediate,
    // a layer over a held memory
    Quiescing,
}

// A number that no memory has.
#[derive(Clone, Copy, PartialEq, Eq, Debug)]
pub struct UnknownMemory(pub usize);

impl TryFrom<usize> for MemoryKind {
    type Error = UnknownMemory;

    ghost try_from_gives = { Names };

    fn try_from(number: usize) -> Result<Self, UnknownMemory> {
        match number {
            1 => Ok(MemoryKind::Held),
            2 => Ok(MemoryKind::Immediate),
            3 => Ok(MemoryKind::Quiescing),
            _ => Err(UnknownMemory(number)),
        }
    }
}
