// What a catalogue says, and how one is written and read.
ghost use Rattle.std.specs.Prelude.{◌≡◌, ℕ, List, length, IfOk};
ghost use Rattle.zc_spacemap.specs.declared.state.PlaceState.{PlaceState};
ghost use Rattle.zc_tree.specs.declared.catalogue.Parts.{Parts};
ghost use Rattle.zc_tree.specs.Catalogue.{catalogue_bytes, parts_of, AreParts, HasTreeWidths};
ghost use Rattle.zc_tree.specs.CatalogueReading.{catalogue_field, AnswersWhole, ReadsWhole};

use crate::Tree;
use std::alloc::Global;
use zc_num::{Limits, Listed, NoMemory};
use zc_spacemap::StoredMap;
use zc_table::StoredTable;
use zc_wire::CatalogFault;

/// What the bytes of a catalogue say, before the parts are compared with one another.
#[derive(Debug, Drop)]
pub struct Parts {
    pub tree: Tree,
    /// The table of each device, in order.
    pub tables: Listed<StoredTable>,
    /// The map of each device, in order.
    pub maps: Listed<StoredMap>,
}

/// A form of the catalogue: how the tree, the tables and the maps of a group become bytes, and what bytes say.
pub trait Catalogue {
    /// The tables of a pool, one for each device.
    type Tables;
    /// The maps of a pool, one for each device.
    type Maps;

    /// For each device the count of each place.
    ghost counts: { Self.Tables → List (List ℕ) };

    /// For each device the state of each place.
    ghost states: { Self.Maps → List (List PlaceState) };

    /// The bytes of the catalogue, with the maps as they will be once they are settled.
    ///
    /// # Errors
    /// Want of memory.
    fn encode(
        alloc: Global,
        tree: &Tree,
        tables: &Self::Tables,
        maps: &Self::Maps,
    ) -> Result<Vec<u8>, NoMemory>
        requires tree { HasTreeWidths tree.now }
        requires devices { length (counts tables.now) ≡ length (states maps.now) }
        ensures { IfOk result (λ bytes. bytes.items ≡ catalogue_bytes (parts_of tree.now (counts tables.now) (states maps.now))) };

    /// What the bytes say. The group and the next dataset number are those of the root.
    ///
    /// # Errors
    /// Want of memory; `BadCatalog` exactly where no catalogue that the root may have is all of the bytes, with the place of the
    /// first field that isn't there whole or breaks a rule.
    fn decode(
        alloc: Global,
        bytes: &[u8],
        limits: &Limits,
        group: u64,
        next_dataset: u64,
    ) -> Result<Parts, CatalogFault>
        ensures found { IfOk result (λ parts. AreParts limits.now.devices limits.now.places group next_dataset parts × (bytes.now ≡ catalogue_bytes parts)) }
        ensures only { (parts : Parts) → AreParts limits.now.devices limits.now.places group next_dataset parts → bytes.now ≡ catalogue_bytes parts → ReadsWhole parts result }
        ensures exact { AnswersWhole (length bytes.now) result (catalogue_field limits.now.devices limits.now.places group next_dataset bytes.now) };
}
