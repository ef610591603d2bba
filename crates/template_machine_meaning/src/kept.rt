//! Laws: what every run of a template keeps, whatever it does.

ghost use Rattle.template_machine_meaning.specs.Keeps.{ExpressionFaultsAreMeant, FaultsAreMeant, RunsKeep};

/// A run leaves what counts as depth around its frames, how many frames are not to be closed, and those frames but for the
/// innermost of them; the escape that it began with, and the block in which it runs; the names of what was loaded, with others
/// before them at most; and of each block the body that runs and the bodies that it had, with others behind them at most:
/// whatever the run's end. A machine has faults of its own, for want of
/// memory, for a sink that fails, or for code that is lost: none of these stands among the kinds that wrap the run's faults,
/// however many includes they come from; nor among those that the run ends with, where none of what a user brought states one.
pub fn runs_keep()
    ensures { RunsKeep }
{}

/// The same of the kinds that a run ends with under any fuel, where what a user brought states no other kinds: a template's
/// fault is never told as want of memory, at any depth.
pub fn faults_are_meant()
    ensures { FaultsAreMeant }
{}

/// The same of what an expression ends with over a context, where its value is handed out, and where what a user brought states
/// no other kinds.
pub fn expression_faults_are_meant()
    ensures { ExpressionFaultsAreMeant }
{}
