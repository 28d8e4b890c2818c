//! The name of a run in the types of its threads.

use std::marker::Brand;

/// The name of a run in the types of its threads: the work, the claims from which the workers draw,
/// and the bus on which they send. The call that starts the threads chooses all three.
pub(crate) trait RunName {
    ghost use Rattle.apply_bus.specs.Bus.{BusName};
    ghost use Rattle.apply_bus.specs.Claims.{ClaimsName};
    ghost use Rattle.apply_events.specs.Step.{Work};

    ghost work: { Work };

    ghost claims: { ClaimsName };

    ghost bus: { BusName };
}

impl RunName for Brand {
    ghost use Rattle.apply_bus.specs.Names.{no_bus, no_claims};
    ghost use Rattle.apply_run.specs.Run.RunName.{no_work};

    ghost work = { no_work };

    ghost claims = { no_claims };

    ghost bus = { no_bus };
}
