//! Laws of units that are secured. Each function does nothing, and its clause is the law.

ghost use Rattle.unit_security.specs.Opening.{SecuredIsOpened};

/// What one side signs or seals the other takes, where the unit has room for a signature, both sessions are in step and
/// the sender's number isn't the last. The other reads the same unit with another stub and its signature, opens it to
/// the unit with its signature, and both sessions are in step again.
#[tactic(auto, using(crate::proofs::OpeningLaws::secured_is_opened))]
pub fn what_is_secured_is_opened()
    ensures { SecuredIsOpened }
{}
