//! Which histories a hub stands for, where threads share it under a lock.
use crate::center::Hub;
use history_lock::Stands;
use role_schema::Meta;
use std::marker::Model;

/// An event of the machine. No value of it is made: contracts alone see it, as the machine's event.
pub struct Happening {
    never: (),
}

impl Model for Happening {
    ghost use Rattle.machine.specs.State.{Event, Skip};

    ghost Value = { Event };

    ghost use Rattle.request_model.specs.contracts.flat.Flat as flat_row;
    ghost use Rattle.std.specs.Coded.{codes};
    ghost use Rattle.hub.specs.DataCodes.{coded_data, coded_members};

    ghost coded = { Prim.hlevel (codes, coded_data, coded_members, flat_row.the_row.coded) };

    ghost view = { λ _. Skip };
}

/// A hub stands for the lists of events that `StandsFor` tells, and its basis is its metadata.
impl Stands for Hub {
    type Event = Happening;

    type Basis = Meta;

    ghost use Rattle.hub_model.specs.Stands.{StandsFor};
    ghost use Rattle.hub.specs.NoMetadata.{no_metadata};

    ghost stands = { StandsFor };

    ghost basis = { λ hub. hub.meta };

    ghost some_basis = { no_metadata };

    fn count(&self) -> u64 {
        self.events
    }
}
