// What a walk asks of a position, whether it stands as nine words or as a record.
ghost use Rattle.std.specs.Prelude.{◌≡◌};
ghost use Rattle.positions.specs.declared.position.Position.{Position};
ghost use Rattle.positions.specs.Positions.{position_from};
ghost use Rattle.event_amounts.specs.Records.{record_in};

use positions::Key;
use positions::position::Position;

pub trait AsPosition {
    // The position that it is.
    ghost as_position: { Self → Position };

    // Whether it is one in the publisher. Nothing but its kind and key is looked at.
    #[tactic(auto, unfolding(crate::specs::Records::record_in))]
    fn in_publisher(&self, publisher: Key) -> bool
        ensures { result ≡ record_in (as_position self.now) publisher }
    {
        self.position().in_publisher(publisher)
    }

    // Its words by name.
    fn position(&self) -> Position
        ensures { result ≡ as_position self.now };
}

impl AsPosition for [u64; 9] {
    ghost as_position = { λ nine. position_from nine 0 };

    fn position(&self) -> Position {
        Position::from(*self)
    }
}

impl AsPosition for Position {
    ghost as_position = { λ position. position };

    fn position(&self) -> Position {
        *self
    }
}
