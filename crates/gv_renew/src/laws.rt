//! A law of the definitions: the function does nothing, and its contract holds of all reports.
ghost use Rattle.gv_renew.specs.Renewing.{RenewedLaw};

/// Reports of which some are told anew: put behind the others, which were in order, and put in order again.
#[tactic(auto, using(crate::proofs::RenewingLaw::renewed))]
pub fn renewed_law()
    ensures { RenewedLaw }
{}
