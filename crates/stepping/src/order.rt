ghost use Rattle.std.specs.Prelude.{◌≡◌};
ghost use Rattle.game_rules.specs.Tick.{Reply, Gives, goes, stops};
ghost use Rattle.stepping.specs.Answered.{goes_on};
ghost use Rattle.stepping.specs.Observing.{kind_of, reply_of, stops_at};

use bt_nodes::Status;

/// By which status of a child its parent goes on to the next one.
#[derive(Clone, Copy)]
pub(crate) enum Order {
    Seq,
    Fallback,
}

impl Order {
    /// The status of a node that has gone on behind its last child.
    pub(crate) fn goes(self) -> Status
        ensures { result ≡ goes (kind_of self) }
    {
        match self {
            Order::Seq => Status::Success,
            Order::Fallback => Status::Failure,
        }
    }

    /// Whether the next child is ticked.
    pub(crate) fn goes_on(self, reply: Option<Status>) -> bool
        ensures { result ≡ goes_on (kind_of self) (reply_of reply) }
    {
        matches!(
            (self, reply),
            (Order::Seq, Some(Status::Success)) | (Order::Fallback, Some(Status::Failure))
        )
    }

    /// Whether the node has come to its end before its last child.
    pub(crate) fn stops(self, reply: Option<Status>) -> bool
        ensures { result ≡ stops_at (kind_of self) (reply_of reply) }
    {
        matches!(
            (self, reply),
            (Order::Seq, Some(Status::Failure)) | (Order::Fallback, Some(Status::Success))
        )
    }
}
