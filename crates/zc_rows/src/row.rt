// Rows, as they are played.
use zc_num::{Name, PlaceAt};
use zc_tape::Keep;

/// A row: what is done and asked, in order.
#[derive(Drop)]
pub struct Row {
    /// The number of its file among those that are played.
    pub file: usize,
    pub name: Vec<u8>,
    pub steps: Vec<Step>,
}

/// A step, with the number of its line.
#[derive(Drop)]
pub struct Step {
    pub line: u64,
    pub act: Act,
}

#[derive(Drop)]
pub enum Act {
    /// Lays a set of zeros.
    Set {
        pool: Name,
        devices: u32,
        places: u32,
    },
    /// Calls of the next run fail, or move few bytes.
    Next(Next),
    Run(Run),
    Change {
        pool: Name,
        change: Change,
    },
    Ask {
        pool: Name,
        ask: Ask,
    },
}

/// What holds for the next run alone.
#[derive(Drop)]
pub enum Next {
    ShelfFails(Vec<u64>),
    SetFails { pool: Name, calls: Vec<u64> },
    SourceFails(Vec<u64>),
    SinkFails(Vec<u64>),
    SourceMost(usize),
    SinkMost(usize),
}

/// A run of the program, and what may come of it.
#[derive(Drop)]
pub struct Run {
    pub words: Vec<String>,
    pub script: Vec<u8>,
    /// Any of these is right.
    pub wanted: Vec<Outcome>,
}

/// How a run ends.
#[derive(PartialEq, Eq, Drop)]
pub struct Outcome {
    pub status: u8,
    pub text: Vec<u8>,
}

/// A change of a set.
#[derive(Drop)]
pub enum Change {
    Crash {
        moment: u64,
        keeps: Vec<Keep>,
    },
    Bytes {
        at: PlaceAt,
        from: usize,
        bytes: Vec<u8>,
    },
    Catalogue {
        from: usize,
        bytes: Vec<u8>,
    },
    Digest {
        at: PlaceAt,
        from: usize,
    },
    Mend {
        slot: u32,
    },
}

/// A block of a file.
#[derive(Drop)]
pub struct FileBlock {
    pub dataset: Name,
    pub file: Name,
    pub block: u32,
}

/// What is asked of a set, and what is to be answered.
#[derive(Drop)]
pub enum Ask {
    Calls {
        calls: u64,
    },
    Damage {
        line: Vec<u8>,
    },
    NoPool,
    Holds {
        at: PlaceAt,
        from: usize,
        bytes: Vec<u8>,
    },
    Zeros {
        at: PlaceAt,
    },
    Found(Question),
}

/// What is asked of what stands after the root.
#[derive(Drop)]
pub enum Question {
    Group {
        group: u64,
    },
    Place {
        block: FileBlock,
        at: Option<PlaceAt>,
    },
    Same {
        first: FileBlock,
        second: FileBlock,
        same: bool,
    },
    Count {
        at: PlaceAt,
        count: u64,
    },
    Region {
        device: u32,
        region: u32,
        sum: u64,
    },
    Allocated {
        at: PlaceAt,
        allocated: bool,
    },
}
