// What is asked of a set.
use crate::row::{FileBlock, Question};
use crate::sets::{Block, block_of};
use crate::telling::{Difference, bytes_of, hex_text, number_text, place_text};
use std::alloc::{AllocError, Global};
use zc_blkptr::Ptr;
use zc_image::{Found, ImageFault, read_pool};
use zc_num::{Name, NoMemory, PlaceAt};
use zc_tape::MemoryDisks;
use zc_tree::{Dataset, File, Parts};

/// What was read of a set.
#[derive(Drop)]
pub struct View {
    pub pool: Name,
    set: MemoryDisks,
    answer: Result<Found, ImageFault>,
}

impl View {
    /// Reads a set.
    pub fn new(alloc: Global, pool: &Name, mut set: MemoryDisks) -> Result<View, NoMemory> {
        let answer = read_pool(alloc, &mut set);
        Ok(View {
            pool: pool.clone()?,
            set,
            answer,
        })
    }

    /// Whether bytes stand in a place.
    pub fn holds(
        &mut self,
        alloc: Global,
        at: &PlaceAt,
        from: usize,
        bytes: &[u8],
    ) -> Result<Option<Difference>, NoMemory> {
        let wanted = hex_text(alloc, bytes)?;
        let found = match block_of(&mut self.set, at) {
            Some(block) => hex_text(alloc, piece_of(&block, from, bytes.len()))?,
            None => bytes_of(alloc, "no such place")?,
        };
        Ok(Difference::of(wanted, found))
    }

    /// The answer to a question about what stands after the root.
    pub fn answer(
        &self,
        alloc: Global,
        question: &Question,
    ) -> Result<Option<Difference>, NoMemory> {
        let wanted = wanted_text(alloc, question)?;
        let found = match &self.answer {
            Ok(found) => found_text(alloc, found, question)?,
            Err(ImageFault::NoPool) => bytes_of(alloc, "no pool")?,
            Err(ImageFault::Damaged { .. }) => bytes_of(alloc, "damaged")?,
            Err(ImageFault::DiskFault) => bytes_of(alloc, "disk fault")?,
            Err(ImageFault::NoMemory) => return Err(AllocError),
        };
        Ok(Difference::of(wanted, found))
    }
}

// So many bytes of a block from one on, as far as they are there.
fn piece_of(block: &Block, from: usize, count: usize) -> &[u8] {
    let start = from.min(4096);
    let (_, rest) = block.as_slice().split_at(start);
    let (piece, _) = rest.split_at(count.min(rest.len()));
    piece
}

// The text of whether two blocks have one place.
fn same_text(alloc: Global, same: bool) -> Result<Vec<u8>, NoMemory> {
    bytes_of(alloc, if same { "one place" } else { "two places" })
}

// The text of whether a place is allocated.
fn allocated_text(alloc: Global, allocated: bool) -> Result<Vec<u8>, NoMemory> {
    bytes_of(alloc, if allocated { "allocated" } else { "free" })
}

// What is wanted.
fn wanted_text(alloc: Global, question: &Question) -> Result<Vec<u8>, NoMemory> {
    match question {
        Question::Group { group } => number_text(alloc, *group),
        Question::Place { block: _, at } => match at {
            Some(at) => place_text(alloc, at),
            None => bytes_of(alloc, "hole"),
        },
        Question::Same { same, .. } => same_text(alloc, *same),
        Question::Count { at: _, count } => number_text(alloc, *count),
        Question::Region { sum, .. } => number_text(alloc, *sum),
        Question::Allocated { at: _, allocated } => allocated_text(alloc, *allocated),
    }
}

// The dataset of a name.
fn dataset_of<'a>(parts: &'a Parts, name: &Name) -> Option<&'a Dataset> {
    parts
        .tree
        .datasets
        .as_slice()
        .iter()
        .find(|dataset| dataset.name == *name)
}

// The file of a name.
fn file_of<'a>(dataset: &'a Dataset, name: &Name) -> Option<&'a File> {
    dataset
        .files
        .as_slice()
        .iter()
        .find(|file| file.name == *name)
}

// What is found of a block of a file.
#[derive(Clone, Copy)]
enum Standing {
    NoFile,
    Hole,
    At(PlaceAt),
}

// Where a pointer is to.
fn place_in(ptr: &Ptr) -> PlaceAt {
    PlaceAt {
        device: ptr.device,
        place: ptr.place,
    }
}

// Where a block of a file stands.
fn standing_of(parts: &Parts, block: &FileBlock) -> Standing {
    let Some(dataset) = dataset_of(parts, &block.dataset) else {
        return Standing::NoFile;
    };
    let Some(file) = file_of(dataset, &block.file) else {
        return Standing::NoFile;
    };
    match file.slots.get(block.block) {
        Some(ptr) => Standing::At(place_in(ptr)),
        None => Standing::Hole,
    }
}

// The text of where a block stands.
fn standing_text(alloc: Global, standing: &Standing) -> Result<Vec<u8>, NoMemory> {
    match standing {
        Standing::NoFile => bytes_of(alloc, "no file"),
        Standing::Hole => bytes_of(alloc, "hole"),
        Standing::At(at) => place_text(alloc, at),
    }
}

// Whether two blocks have one place.
fn compared_text(alloc: Global, first: &Standing, second: &Standing) -> Result<Vec<u8>, NoMemory> {
    match (first, second) {
        (Standing::At(first), Standing::At(second)) => {
            same_text(
                alloc,
                first.device == second.device && first.place == second.place,
            )
        }
        _ => bytes_of(alloc, "a block that has no place"),
    }
}

// The count that the tables have for a place.
fn count_of(parts: &Parts, at: &PlaceAt) -> Option<u64> {
    let table = parts.tables.as_slice().get(at.device as usize)?;
    let entry = table
        .entries
        .as_slice()
        .iter()
        .find(|entry| entry.place == at.place);
    match entry {
        Some(entry) => Some(entry.count),
        None => Some(0),
    }
}

// The counter of a region.
fn region_of(parts: &Parts, device: u32, region: u32) -> Option<u64> {
    let table = parts.tables.as_slice().get(device as usize)?;
    table.regions.as_slice().get(region as usize).copied()
}

// Whether a place is allocated.
fn is_allocated(parts: &Parts, at: &PlaceAt) -> Option<bool> {
    let map = parts.maps.as_slice().get(at.device as usize)?;
    map.allocated.as_slice().get(at.place as usize).copied()
}

// A number, where there is one.
fn number_or_none(alloc: Global, number: Option<u64>) -> Result<Vec<u8>, NoMemory> {
    match number {
        Some(number) => number_text(alloc, number),
        None => bytes_of(alloc, "no such place"),
    }
}

// What is found.
fn found_text(alloc: Global, found: &Found, question: &Question) -> Result<Vec<u8>, NoMemory> {
    let parts = &found.parts;
    match question {
        Question::Group { .. } => number_text(alloc, found.body.group),
        Question::Place { block, .. } => standing_text(alloc, &standing_of(parts, block)),
        Question::Same { first, second, .. } => compared_text(
            alloc,
            &standing_of(parts, first),
            &standing_of(parts, second),
        ),
        Question::Count { at, .. } => number_or_none(alloc, count_of(parts, at)),
        Question::Region { device, region, .. } => {
            number_or_none(alloc, region_of(parts, *device, *region))
        }
        Question::Allocated { at, .. } => match is_allocated(parts, at) {
            Some(allocated) => allocated_text(alloc, allocated),
            None => bytes_of(alloc, "no such place"),
        },
    }
}
