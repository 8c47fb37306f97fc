// The checks of what a catalogue says, and the blocks that its pointers are to.
ghost use Rattle.std.specs.Prelude.{◌≡◌, ◌≤◌, IfOk, OnOk, IsErrOf, None};
ghost use Rattle.zc_tape.specs.Cause.{Rose};
ghost use Rattle.zc_tape.specs.Crash.{reads};
ghost use Rattle.zc_tree.specs.Catalogue.{AreParts};
ghost use Rattle.zc_tree.specs.Reach.{pointers_of_tree};
ghost use Rattle.zc_damage.specs.Places.{ChainPlaces};
ghost use Rattle.zc_damage.specs.Checks.{HaveAreas, worn_hit};
ghost use Rattle.zc_damage.specs.Census.{IsCensus};
ghost use Rattle.zc_image.specs.ReadAnswers.{IsWhole, ReadAnswers};
ghost use Rattle.zc_image.specs.Checked.{IsChecked};
ghost use Rattle.zc_image.specs.Steps.{blocks_in};

use crate::ImageFault;
use crate::blocks::read_blocks;
use crate::hits::pass;
use std::alloc::Global;
use zc_damage::{Census, FoundBlock, early_hit, late_hit};
use zc_num::{Limits, Listed, PlaceAt};
use zc_tape::DiskSet;
use zc_tree::Parts;

// Makes the checks that need no block, reads the blocks, and makes the others.
#[tactic(auto, unfolding(crate::specs::Steps::blocks_in), using(crate::proofs::StepLaws::no_owner_hit, crate::proofs::StepLaws::no_worn_hit))]
fn check_and_read<D: DiskSet>(
    alloc: Global,
    disks: &mut D,
    limits: &Limits,
    parts: &Parts,
    chain: &[PlaceAt],
    census: &Census,
) -> Result<Listed<FoundBlock>, ImageFault>
    requires areas { HaveAreas parts.now.tree.datasets }
    requires census { IsCensus limits.now.devices limits.now.places (pointers_of_tree parts.now.tree) chain.now census.now }
    requires devices { limits.now.devices ≡ (D.shape disks.old).devices }
    requires places { limits.now.places ≡ (D.shape disks.old).places }
    ensures exact { IsWhole (D.tape disks.old) → ReadAnswers (λ blocks. blocks) result (blocks_in limits.now.devices limits.now.places (reads (D.tape disks.old)) chain.now parts.now) }
    ensures fresh { OnOk result (worn_hit parts.now.tree ≡ None) }
    ensures checked { IfOk result (λ blocks. IsChecked limits.now.devices limits.now.places parts.now chain.now blocks) }
    ensures tape { D.tape disks.new ≡ D.tape disks.old }
    ensures shape { D.shape disks.new ≡ D.shape disks.old }
    ensures spare { D.spare disks.new ≡ D.spare disks.old }
    ensures later { D.faults disks.old ≤ D.faults disks.new }
    ensures cause { IsErrOf result ImageFault.DiskFault → Rose (D.faults disks.old) (D.faults disks.new) }
{
    pass(alloc, early_hit(limits, parts, chain, census))?;
    let blocks = read_blocks(alloc, disks, limits, census)?;
    let hit = late_hit(alloc, limits, parts, chain, blocks.as_slice(), census)?;
    pass(alloc, hit)?;
    Ok(blocks)
}

// The same of a catalogue that was read.
#[tactic(auto, using(crate::proofs::StepLaws::parts_have_places, crate::proofs::StepLaws::parts_have_areas))]
pub fn read_reach<D: DiskSet>(
    alloc: Global,
    disks: &mut D,
    limits: &Limits,
    parts: &Parts,
    chain: &[PlaceAt],
    group: u64,
    next_dataset: u64,
) -> Result<Listed<FoundBlock>, ImageFault>
    requires parts { AreParts limits.now.devices limits.now.places group next_dataset parts.now }
    requires chain { ChainPlaces limits.now.devices limits.now.places chain.now }
    requires devices { limits.now.devices ≡ (D.shape disks.old).devices }
    requires places { limits.now.places ≡ (D.shape disks.old).places }
    ensures exact { IsWhole (D.tape disks.old) → ReadAnswers (λ blocks. blocks) result (blocks_in limits.now.devices limits.now.places (reads (D.tape disks.old)) chain.now parts.now) }
    ensures fresh { OnOk result (worn_hit parts.now.tree ≡ None) }
    ensures checked { IfOk result (λ blocks. IsChecked limits.now.devices limits.now.places parts.now chain.now blocks) }
    ensures tape { D.tape disks.new ≡ D.tape disks.old }
    ensures shape { D.shape disks.new ≡ D.shape disks.old }
    ensures spare { D.spare disks.new ≡ D.spare disks.old }
    ensures later { D.faults disks.old ≤ D.faults disks.new }
    ensures cause { IsErrOf result ImageFault.DiskFault → Rose (D.faults disks.old) (D.faults disks.new) }
{
    let reach = parts.tree.walk(alloc)?;
    let census = Census::of(alloc, limits, reach.as_slice(), chain)?;
    check_and_read(alloc, disks, limits, parts, chain, &census)
}
