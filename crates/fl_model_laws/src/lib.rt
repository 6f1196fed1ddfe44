//! The laws of the machine: what holds of every run, each the contract of a function that does nothing.
#![tactic(auto)]

ghost use Rattle.fl_model.specs.Keeping.{KeepsCalls};
ghost use Rattle.std.specs.Prelude.{◌≡◌, List};
ghost use Rattle.fl_model.specs.Events.{Event};
ghost use Rattle.fl_model.specs.State.{State, start};
ghost use Rattle.fl_model.specs.Step.{step};
ghost use Rattle.fl_model.specs.Runs.{reached};
ghost use Rattle.fl_model.specs.Sound.{Sound};
ghost use Rattle.fl_model.specs.SoundOpenings.{OpeningsGoInOrder};
ghost use Rattle.fl_model.specs.SoundPlaces.{CoresStand, EndsStand, LinksArePaired, RingsHaveOneOwner};
ghost use Rattle.fl_model.specs.SoundPlaces.{ServicesStand};
ghost use Rattle.fl_model.specs.SoundRoutes.{RoutesLead};
ghost use Rattle.fl_model.specs.SoundLabels.{LabelsKeepToTheirWays, WritesAreCounted};
ghost use Rattle.fl_model.specs.SoundRings.{RingsCount, RingsFit};
ghost use Rattle.fl_model.specs.Worlds.{WorldsAreSound, EverInOrder, EverFewWait, ListedHaveEnds};
ghost use Rattle.fl_model.specs.Worlds.{WritesUnderstand, ShowsUnderstand, TurnsGiveTheNext, EverSound};
ghost use Rattle.fl_model.specs.Worlds.{EverOnceBothWays, EverFits, EverHaveEnds, AskedCallsFit};
ghost use Rattle.fl_model.specs.SoundCalls.{CallsFit, RulesSuit};
ghost use Rattle.fl_model.specs.SoundLists.{FewRepliesWait, RepliesWaitWhereBusy, QueuesHaveRoom};
ghost use Rattle.fl_model.specs.SoundLists.{OutboxesHaveRoom, BareUntilCoresAreSet};
ghost use Rattle.fl_model.specs.Laws.{RingsCountInOrder, FewWaitAndOnlyWhereBusy, AllAccepted, PassedFalls};
ghost use Rattle.fl_model.specs.Laws.{HandledIsCounted, HandledIsAPrefix, RefusalsChangeNothing, TablesGoOn};
ghost use Rattle.fl_model.specs.Faults.{NoWireFaults, TablesFollowMessages};
ghost use Rattle.fl_model.specs.Laws.{RunsAreSound, ChannelsAreOnce, PendingHasAFragment, TurnsUnderstand};
ghost use Rattle.fl_model.specs.Laws.{ForwardsUnderstand, StepsAreSound, NumbersAreGivenOnce};
ghost use Rattle.fl_model.specs.SoundLimits.{CoresAreFew};
ghost use Rattle.fl_model.specs.SoundLimits.{InterfacesAreFew, ServicesAreFew, BindingsAreFew};

// ---- Runs and sound states

/// Each step of a sound state leads to a sound state.
pub fn law_steps_are_sound()
    ensures sound { StepsAreSound }
{}

/// Every state that a run reaches is sound, from one core.
pub fn law_runs_are_sound()
    ensures sound { RunsAreSound }
{}

/// Every state that a run reaches is sound, from a world of 1 to 16 cores.
pub fn law_worlds_stay_sound()
    ensures sound { EverSound }
{}

/// The start is a sound state.
pub fn law_start_is_sound()
    ensures sound { Sound start }
{}

/// A world that is booted with 1 to 16 cores is a sound state.
pub fn law_worlds_are_sound()
    ensures sound { WorldsAreSound }
{}

// ---- Calls

/// The calls that an end handled over a run are a prefix of those that were accepted at the other end, in order, with equal
/// arguments: over every route and back end.
pub fn law_handled_is_a_prefix()
    ensures prefix { HandledIsAPrefix }
{}

/// The calls that an end handled over a run are those that the fragments taken make whole.
pub fn law_handled_is_counted()
    ensures counted { HandledIsCounted }
{}

/// What an end accepted over a run is the calls that it was asked for and that were accepted, and its replies by rule, merged
/// in order; these replies, and then those that still wait, are all that fell due.
pub fn law_all_accepted()
    ensures accepted { AllAccepted }
{}

/// Each call that an end was asked to make over a run and that was accepted fits the interface, however many cores the
/// world began with.
pub fn law_asked_calls_fit()
    ensures fit { AskedCallsFit }
{}

/// In every run from a world of 1 to 16 cores, each call that an end accepted, and each reply that waits there, fits the interface.
pub fn law_calls_ever_fit()
    ensures fit { EverFits }
{}

/// In every state that a run reaches, at most 16 replies wait at an end, and they wait only while the end is busy.
pub fn law_few_replies_wait()
    ensures few { FewWaitAndOnlyWhereBusy }
{}

/// Replies that wait, as in `few_replies_wait`, in every run from a world of 1 to 16 cores.
pub fn law_few_replies_ever_wait()
    ensures few { EverFewWait }
{}

/// In every state that a run reaches, all calls of an end but the last are written, and no more fragments than its calls have.
pub fn law_writes_are_counted()
    ensures counted { (vs : List Event) → WritesAreCounted (reached start vs) }
{}

/// In every state that a run reaches, no more fragments of a direction have passed a station than the one before it.
pub fn law_passed_falls()
    ensures falls { PassedFalls }
{}

/// In a sound state, a write answers `nothing` only where all fragments of the end's calls are written.
pub fn law_writes_are_understood()
    ensures understood { WritesUnderstand }
{}

/// In a sound state, nothing is shown only where all fragments of the end's calls are written.
pub fn law_shows_are_understood()
    ensures understood { ShowsUnderstand }
{}

// ---- Waitsets

/// In every state that a run reaches, no channel stands twice in a waitset's lists.
pub fn law_channels_are_once()
    ensures once { ChannelsAreOnce }
{}

/// In every state that a run reaches, a pending channel has a fragment, and where that is a ring's it was looked at.
pub fn law_pending_has_a_fragment()
    ensures has { PendingHasAFragment }
{}

/// In every run from a world of 1 to 16 cores, a channel that stands in a list of its dispatcher has an end, and that a binding.
pub fn law_listed_ever_have_ends()
    ensures ends { EverHaveEnds }
{}

/// In a sound state, a channel that stands in a list of its dispatcher has an end, and that a binding.
pub fn law_listed_have_ends_in_sound_states()
    ensures ends { (s : State) → Sound s → ListedHaveEnds s }
{}

/// In a sound state, a turn answers `nothing` only where no channel of the dispatcher is pending or polled.
pub fn law_turns_are_understood()
    ensures understood { TurnsUnderstand }
{}

/// In a sound state, a turn of a dispatcher with a pending channel gives the first one's end the other end's next fragment, or
/// holds that back.
pub fn law_turns_give_the_next_fragment()
    ensures next { TurnsGiveTheNext }
{}

// ---- Rings

/// In every state that a run reaches, on each direction of each ring: known, told and sent don't fall, no more is sent
/// than what is known and the ring's size; so a number of 16 bits names one count from known to sent.
pub fn law_rings_count_in_order()
    ensures counts { RingsCountInOrder }
{}

/// The counts of rings, as in `rings_count_in_order`, in every run from a world of 1 to 16 cores.
pub fn law_rings_ever_count_in_order()
    ensures counts { EverInOrder }
{}

// ---- Links and circuits

/// In every state that a run reaches, each link is there both ways, and each side of a ring has one owner.
pub fn law_links_are_paired()
    ensures paired { (vs : List Event) → LinksArePaired (reached start vs) × RingsHaveOneOwner (reached start vs) }
{}

/// In every state that a run reaches, the openings under way on each link are in order.
pub fn law_openings_go_in_order()
    ensures order { (vs : List Event) → OpeningsGoInOrder (reached start vs) }
{}

/// A circuit's number on a link is given once: in every state that a run reaches, where two routes have one number on the link
/// from one core to the next, they are one binding's.
pub fn law_numbers_are_given_once()
    ensures once { NumbersAreGivenOnce }
{}

/// The same in both directions of a link, in every run from a world of 1 to 16 cores: whichever of the two cores gave the number.
pub fn law_numbers_are_once_both_ways()
    ensures once { EverOnceBothWays }
{}

/// Each step of a sound state keeps each core's table: numbers that were given stay given, and at a number that was given no
/// other entry ever comes.
pub fn law_tables_go_on()
    ensures kept { TablesGoOn }
{}

/// Each step of a sound state leaves a core's table of circuits as it is, adds a link, makes the entry of the core's own opening,
/// or makes of it what hearing the message that stands first on one of its links comes to; that message is then taken.
pub fn law_tables_follow_messages()
    ensures follows { TablesFollowMessages }
{}

/// In a sound state, a forward answers `nothing` only where nothing stands on the link: for each call's fragment, and each
/// answer to an opening, an entry stands.
pub fn law_forwards_are_understood()
    ensures understood { ForwardsUnderstand }
{}

// ---- Refusals

/// An event that is refused changes nothing, in any state at all.
pub fn law_refusals_change_nothing()
    ensures same { RefusalsChangeNothing }
{}

/// No event is refused with a fault of a received fragment, or of a circuit without an entry, in any state at all.
pub fn law_no_wire_faults()
    ensures none { NoWireFaults }
{}

// ---- Each part of being sound, step by step

/// Each step keeps the limits of a world, whatever else the state holds: at most 16 cores, 64 interfaces, 256 services and
/// 1,024 bindings.
pub fn law_steps_keep_limits()
    ensures kept { (s : State) (v : Event) → CoresAreFew s → InterfacesAreFew s → ServicesAreFew s → BindingsAreFew s
        → CoresAreFew (step s v).state × InterfacesAreFew (step s v).state × ServicesAreFew (step s v).state
        × BindingsAreFew (step s v).state }
{}

/// Each step keeps what is there while the number of cores may be set: nothing but cores and interfaces.
pub fn law_steps_keep_bare()
    ensures kept { (s : State) (v : Event) → BareUntilCoresAreSet s → BareUntilCoresAreSet (step s v).state }
{}

/// Each step keeps every link there both ways, over the two sides of one ring, and one owner for each side of a ring.
pub fn law_steps_keep_links()
    ensures kept { (s : State) (v : Event) → CoresStand s → EndsStand s → LinksArePaired s → RingsHaveOneOwner s
        → LinksArePaired (step s v).state × RingsHaveOneOwner (step s v).state }
{}

/// Each step keeps the dispatcher and the interface of each service there, where nothing but cores and interfaces is
/// there while the number of cores may be set.
pub fn law_steps_keep_services()
    ensures kept { (s : State) (v : Event) → BareUntilCoresAreSet s → ServicesStand s → ServicesStand (step s v).state }
{}

/// Each step keeps how ends stand, whatever else the state holds: an end's binding has its interface, its direction all
/// its stations, its rules one for each message, and it has a queue or its binding's ring.
pub fn law_steps_keep_ends()
    ensures kept { (s : State) (v : Event) → EndsStand s → EndsStand (step s v).state }
{}

/// Each step keeps the openings of circuits that are under way on each link in order: those that one core has counted and
/// the other hasn't.
pub fn law_steps_keep_openings()
    ensures kept { (s : State) (v : Event) → CoresStand s → EndsStand s → LinksArePaired s → RingsHaveOneOwner s → OpeningsGoInOrder s
        → OpeningsGoInOrder (step s v).state }
{}

/// Each step keeps the counts of all writes, where ends stand and routes lead: all calls of an end but the last are written,
/// and no more fragments than its calls have.
pub fn law_steps_keep_writes_counted()
    ensures kept { (s : State) (v : Event) → EndsStand s → RoutesLead s → WritesAreCounted s → WritesAreCounted (step s v).state }
{}

/// Each step keeps the counts of all rings, whatever else the state holds: what a writer knows, what waiting labels tell,
/// what was told and what was read never fall from one to the next, and no more is sent than is known to be read and a
/// ring holds.
pub fn law_steps_keep_counts()
    ensures kept { (s : State) (v : Event) → RingsCount s → RingsFit s → RingsCount (step s v).state × RingsFit (step s v).state }
{}

/// Each step keeps what is said of replies that wait, where ends stand and routes lead: at most 16 wait at an end, and they
/// wait only while the end is busy.
pub fn law_steps_keep_waiting_replies()
    ensures kept { (s : State) (v : Event) → EndsStand s → RoutesLead s → FewRepliesWait s → RepliesWaitWhereBusy s
        → FewRepliesWait (step s v).state × RepliesWaitWhereBusy (step s v).state }
{}

/// Each step keeps the limit of all queues, whatever else the state holds: a queue holds no more labels than it has slots.
pub fn law_steps_keep_queues()
    ensures kept { (s : State) (v : Event) → QueuesHaveRoom s → QueuesHaveRoom (step s v).state }
{}

/// Each step keeps the limit of all outboxes, whatever else the state holds: a monitor has at most 64 messages still to
/// say on a link.
pub fn law_steps_keep_outboxes()
    ensures kept { (s : State) (v : Event) → OutboxesHaveRoom s → OutboxesHaveRoom (step s v).state }
{}

/// Each step keeps that every call that an end accepted, and every reply that waits there, fits the interface, and
/// that reply rules lead from a message to one with the same argument types: where each end has its binding and its
/// interface, and labels keep to their ways (both are parts of a sound state).
pub fn law_steps_keep_fitting()
    ensures kept { (s : State) (v : Event) → EndsStand s → LabelsKeepToTheirWays s → CallsFit s → RulesSuit s
        → CallsFit (step s v).state × RulesSuit (step s v).state }
{}

/// Each step keeps of each binding, whatever else the state holds, its interface, the numbers that its circuit has, and the
/// calls that each end has accepted as the first of those that it has accepted then.
pub fn law_steps_keep_calls()
    ensures kept { (s : State) (v : Event) → KeepsCalls s (step s v).state }
{}
