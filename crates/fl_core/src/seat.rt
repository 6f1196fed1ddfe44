//! Where an end sits.

use crate::kind::ChannelKind;
use fl_base::ChanId;
use fl_endpoint::End;
use std::marker::Model;

/// An end, with its dispatcher, its channel there and how fragments come to it.
#[derive(Drop)]
pub(crate) struct EndAtChannel {
    pub(crate) end: End,
    pub(crate) dispatcher: usize,
    pub(crate) channel: ChanId,
    pub(crate) kind: ChannelKind,
}

impl Model for EndAtChannel {
    ghost use Rattle.std.specs.Coded.{codes};
    ghost use Rattle.fl_compile.specs.contracts.program.Program.{the_row};
    ghost use Rattle.fl_core.specs.BoardView.{TheEndAtChannel};

    ghost Value = { TheEndAtChannel };

    ghost coded = { Prim.hlevel (codes, the_row.coded) };

    ghost view = { λ s. record { end = s.end; dispatcher = s.dispatcher; channel = s.channel.0; kind = s.kind } };
}
