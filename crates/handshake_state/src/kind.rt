// What a slot is, by its stage: free, an accepted or a started connection in progress, or connected.
ghost use Rattle.std.specs.Prelude.{◌≡◌};
ghost use Rattle.handshake_rules.specs.Endpoint as spec;
ghost use Rattle.handshake_state.specs.Lookup.{kind_number};

use handshake_rules::endpoint::Stage;

#[derive(Clone, Copy, Debug, PartialEq, Eq)]
pub enum Kind {
    Free,
    Accepted,
    Started,
    Connected,
}

impl From<Stage> for Kind {
    ghost from_gives = { λ stage kind. kind_number kind ≡ spec.kind stage };

    fn from(stage: Stage) -> Kind {
        match stage {
            Stage::Free => Kind::Free,
            Stage::AwaitsName => Kind::Accepted,
            Stage::AwaitsAlive => Kind::Accepted,
            Stage::AwaitsReply => Kind::Accepted,
            Stage::AwaitsStatus => Kind::Started,
            Stage::AwaitsChallenge => Kind::Started,
            Stage::AwaitsAck => Kind::Started,
            Stage::Connected => Kind::Connected,
        }
    }
}
