// What the kinds of device differ in.
ghost use Rattle.std.specs.Prelude.{◌≡◌, ℕ, ◌+◌, ◌<◌, ◌≤◌, Bool, List, length, false, slice_index_or, Decides};
ghost use Rattle.devices.specs.Devices.{Kind, InOrder, held, Programmed};
ghost use Rattle.devices.specs.Rules.{Rules};
ghost use Rattle.storage.specs.Refusals.{spelled};
ghost use Rattle.storage.specs.Standing.{unmarked};

use crate::copies::{Copies, Power, Spent};
use storage::refusal::Name;

pub trait Medium {
    ghost rules: { Kind };

    // The torn marks that it keeps for a device of so many bytes.
    ghost torn: { Self → ℕ → List Bool };

    // The name in its faults. It and the unit are methods, since the check gives a constant no
    // clauses where the type that implements the trait has a lifetime.
    ghost name: { List ℕ };

    fn name(&self) -> Name
        ensures { spelled result ≡ name };

    // How many bytes one choice of a cut decides.
    fn unit(&self) -> usize
        ensures unit { result ≡ rules.unit }
        ensures some { 0 < result };

    // Whether its own lent memory fits a device of so many bytes.
    fn fits(&self, size: usize) -> bool
        ensures { Decides result (length (torn self.now size) ≡ size) };

    // Writes a range, as far as the life suffices.
    fn program(
        &mut self,
        copies: &mut Copies<'_>,
        power: &mut Power,
        offset: usize,
        bytes: &[u8],
    ) -> Result<(), Spent>
        requires fits { offset + length bytes.now ≤ length copies.old.durable.now }
        requires in_order { InOrder (held torn copies.old power.old self.old) }
        ensures { Programmed rules offset bytes.now (held torn copies.old power.old self.old) (held torn copies.new power.new self.new) result };

    // No byte is torn any more.
    fn forget(&mut self)
        ensures { (n : ℕ) → torn self.new n ≡ unmarked (torn self.old n) };

    // The byte k that a cut leaves.
    fn pick(&self, k: usize, choice: u8, durable: u8, visible: u8) -> u8
        ensures { (n : ℕ) → result ≡ rules.pick choice durable visible (slice_index_or (torn self.now n) k false) };

    ghost keeps_rules: { Rules rules };
}
