// What can be wrong with a pool's image, and the checks of what its catalogue says.
//
// Each check has one order, and the first hit in it is the damage: its kind, its place, the value that is kept and the one that
// was found. The definitions go place by place: which pointers of the reach are to it, what tables and maps say of it. The code
// goes over the pointers once, keeps for each place what it needs of them, and asks no list twice.
#![tactic(auto)]

mod block;
mod census;
mod damage;
mod early;
mod late;
mod numbering;
mod place_use;
mod said;
mod tails;

pub use block::FoundBlock;
pub use census::Census;
pub use damage::{Damage, DamageKind, Hit};
pub use early::{birth_hit, early_hit, log_hit, owner_hit, worn_hit};
pub use late::{charge_hit, count_hit, late_hit, map_hit, region_hit};
pub use tails::tail_hit;
