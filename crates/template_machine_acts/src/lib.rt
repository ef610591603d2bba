//! What single instructions make of a run.
#![tactic(auto)]

ghost use Rattle.template_machine_acts.specs.Answers.{AddCountedActs, ConstantActs, DiscardActs, DoubleActs, JumpActs, LookupActs, SwapActs, SwapCountedActs, UndefinedActs};
ghost use Rattle.template_machine_acts.specs.Blocks.{CallBlockAsks, DoneActs, FastSuperAsks, IncludeAsks, LoadBlocksAsks, PlannedActs, PlannedFaults, RecurseAsks, SuperAsks, SuperPlanned, ValueActs};
ghost use Rattle.template_machine_acts.specs.Calls.{BuildKwargsActs, MergeKwargsActs};
ghost use Rattle.template_machine_acts.specs.Captures.{BeginCaptureActs, EndCaptureActs, PrintCaptures, WriteCaptures};
ghost use Rattle.template_machine_acts.specs.Events.{BreaksAstray, EventsAct, EventsFault, PassesActs, StuckAstray};
ghost use Rattle.template_machine_acts.specs.Includes.{IncludeActs, IncludeFaults, IncludeRunsOut, IncludeStrays, IncludeWants};
ghost use Rattle.template_machine_acts.specs.Nested.{NestedActs, NestedFaults, NestedRunsOut, NestedStrays, NestedTurns, NestedWants};
ghost use Rattle.template_machine_acts.specs.Refusals.{ChoiceRefused, IncludeRefused, MissingActs, RoomRefused};
ghost use Rattle.template_machine_acts.specs.Scopes.{BuildMacroActs, CloseEscapeActs, CloseFrameActs, CloseLoopActs, DidNotIterateActs, EncloseActs, ExportActs, GetClosureActs, NextItemActs, NoItemActs, OpenEscapeActs, OpenFrameActs, OpenLoopActs, RoundsLeave, SetAttributeActs, StoreActs};
ghost use Rattle.template_machine_acts.specs.Values.{BuildListActs, BuildMapActs, BuildTupleActs, CompareActs, GetAttributeActs, GetItemActs, InvertActs, JumpIfFalseActs, JumpIfFalseOrPopActs, JumpIfTrueOrPopActs, NegateActs, OperateActs, SliceActs, UnpackActs, UnpackListsActs};
ghost use Rattle.template_machine_acts.specs.Writings.{PrintActs, PrintFaults, WriteActs};

/// An instruction that asks nothing, or whose event is answered, acts; and one whose event fails faults.
pub fn events_act<S>()
    ensures passes { PassesActs S }
    ensures acts { EventsAct S }
    ensures faults { EventsFault S }
{}

/// An instruction is lost whose event breaks off, or whose operand is not there.
pub fn events_stray<S>()
    ensures breaks { BreaksAstray S }
    ensures stuck { StuckAstray S }
{}

/// Jumps, constants, operands that change places, counted runs that grow and the test for undefined ask nothing, and a
/// look-up is always answered.
pub fn operands_act()
    ensures jump { JumpActs }
    ensures constant { ConstantActs }
    ensures swap { SwapActs }
    ensures swap_counted { SwapCountedActs }
    ensures add_counted { AddCountedActs }
    ensures undefined { UndefinedActs }
    ensures double { DoubleActs }
    ensures discard { DiscardActs }
    ensures lookup { LookupActs }
{}

/// Operators and parts of values give a value, or fault.
pub fn operators_act()
    ensures negate { NegateActs }
    ensures invert { InvertActs }
    ensures operate { OperateActs }
    ensures compare { CompareActs }
    ensures attribute { GetAttributeActs }
    ensures item { GetItemActs }
    ensures slice { SliceActs }
{}

/// Containers are built and unpacked, and the items of several become a counted run, or that faults.
pub fn containers_act()
    ensures list { BuildListActs }
    ensures tuple { BuildTupleActs }
    ensures map { BuildMapActs }
    ensures unpack { UnpackActs }
    ensures counted { UnpackListsActs }
{}

/// Keyword arguments are built and merged, or that faults.
pub fn calls_act()
    ensures kwargs { BuildKwargsActs }
    ensures merged { MergeKwargsActs }
{}

/// Jumps on a value's truth lead on or to their targets, or fault.
pub fn truths_act()
    ensures jump_if_false { JumpIfFalseActs }
    ensures jump_if_false_or_pop { JumpIfFalseOrPopActs }
    ensures jump_if_true_or_pop { JumpIfTrueOrPopActs }
{}

/// A store changes the innermost frame, and what it holds becomes a module; frames open where there is room, and close.
pub fn frames_act()
    ensures store { StoreActs }
    ensures exported { ExportActs }
    ensures opened { OpenFrameActs }
    ensures closed { CloseFrameActs }
{}

/// The innermost frame's closure holds names and goes on top, and a macro is made with it.
pub fn macros_act()
    ensures enclosed { EncloseActs }
    ensures given { GetClosureActs }
    ensures made { BuildMacroActs }
{}

/// A namespace takes an attribute, or that faults.
pub fn namespaces_act()
    ensures set { SetAttributeActs }
{}

/// A loop opens over the items of a value, gives one after another, tells whether it gave any, and closes; where its rounds were
/// called the run ends there.
pub fn loops_act()
    ensures opened { OpenLoopActs }
    ensures next { NextItemActs }
    ensures over { NoItemActs }
    ensures did_not_iterate { DidNotIterateActs }
    ensures closed { CloseLoopActs }
    ensures left { RoundsLeave }
{}

/// An escape that a value names is in force until it is closed.
pub fn escapes_act()
    ensures opened { OpenEscapeActs }
    ensures closed { CloseEscapeActs }
{}

/// Captures begin, take what is written while they are the innermost, and end.
pub fn captures_act()
    ensures begun { BeginCaptureActs }
    ensures ended { EndCaptureActs }
    ensures write { WriteCaptures }
    ensures print { PrintCaptures }
{}

/// Texts are written, and values printed or refused.
pub fn writings_act()
    ensures write { WriteActs }
    ensures print { PrintActs }
    ensures refuse { PrintFaults }
{}

/// An instruction whose event enters a run within comes to what that run comes to: it goes on where that ends, unless nothing can be
/// made of what that gives, and faults, runs out of fuel, stops or is lost where that does.
pub fn nested_act()
    ensures acts { NestedActs }
    ensures turns { NestedTurns }
    ensures faults { NestedFaults }
    ensures runs_out { NestedRunsOut }
    ensures wants { NestedWants }
    ensures strays { NestedStrays }
{}

/// An include comes to what the first template that stands among its choices comes to: it goes on where that
/// ends, and faults, runs out of fuel, stops or is lost where that does.
pub fn includes_act()
    ensures acts { IncludeActs }
    ensures faults { IncludeFaults }
    ensures runs_out { IncludeRunsOut }
    ensures wants { IncludeWants }
    ensures strays { IncludeStrays }
{}

/// An include is refused that names no templates, reaches a choice that is no text, or has no room; and where
/// none of its choices stands it is refused unless missing ones are ignored or it has none.
pub fn includes_refuse()
    ensures choices { IncludeRefused }
    ensures choice { ChoiceRefused }
    ensures missing { MissingActs }
    ensures room { RoomRefused }
{}

/// What the instructions ask that run a block or another template, or load the blocks of the template that is extended; and what is
/// planned for `super` by its name.
pub fn blocks_ask()
    ensures call { CallBlockAsks }
    ensures fast_super { FastSuperAsks }
    ensures super_named { SuperAsks }
    ensures load { LoadBlocksAsks }
    ensures includes { IncludeAsks }
    ensures again { RecurseAsks }
    ensures planned { SuperPlanned }
{}

/// What is planned to be done at once, or refused, is so; and a run within that comes to its end is done, or gives its value.
pub fn plans_act()
    ensures acts { PlannedActs }
    ensures faults { PlannedFaults }
    ensures ends { DoneActs }
    ensures gives { ValueActs }
{}
