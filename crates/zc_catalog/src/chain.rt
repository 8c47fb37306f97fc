// The form of the catalogue that writes all of it.
ghost use Rattle.std.specs.Prelude.{map};
ghost use Rattle.zc_table.specs.Plain.{counts_of};
ghost use Rattle.zc_spacemap.specs.MapStates.{states_of};

use crate::reading::read_whole;
use crate::writing::put_catalogue;
use std::alloc::Global;
use zc_num::{Limits, Listed, NoMemory};
use zc_spacemap::BitMap;
use zc_table::PlainTable;
use zc_tree::{Catalogue, Parts, Tree};
use zc_wire::CatalogFault;

/// The catalogue as one string of bytes.
pub struct Chain;

impl Catalogue for Chain {
    type Tables = Listed<PlainTable>;

    type Maps = Listed<BitMap>;

    ghost counts = { λ tables. map counts_of tables };

    ghost states = { λ maps. map states_of maps };

    fn encode(
        alloc: Global,
        tree: &Tree,
        tables: &Listed<PlainTable>,
        maps: &Listed<BitMap>,
    ) -> Result<Vec<u8>, NoMemory> {
        let mut out = Vec::new(alloc);
        put_catalogue(tree, tables.as_slice(), maps.as_slice(), &mut out)?;
        Ok(out)
    }

    fn decode(
        alloc: Global,
        bytes: &[u8],
        limits: &Limits,
        group: u64,
        next_dataset: u64,
    ) -> Result<Parts, CatalogFault> {
        read_whole(alloc, bytes, limits, group, next_dataset)
    }
}
