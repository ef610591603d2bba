//! The virtual machine of templates: environments of templates, and their renders over a context into a
//! sink. This crate holds no code of its own: it gathers under one name all that a program needs to render, values,
//! contexts, errors and syntaxes among it.
//!
//! # A first example
//!
//! ```text
//! let mut ids = StateIds::new(0);
//! let context = context_from_json(alloc, b"{\"name\": \"World\"}")?;
//! let mut environment = Environment::new(alloc, &mut ids)?;
//! environment.add_template("hello.txt", "Hello {{ name }}!")?;
//! let template = environment.get_template("hello.txt")?;
//! let mut out = String::new(alloc);
//! template.render_captured_to(&mut ids, context, &mut out)?;
//! ```
//!
//! `out` is then `Hello World!`.
//!
//! # The main calls
//!
//! - [`context_from_json`] gives the context that a JSON object says, [`context_from_json_with`] one whose numbers with a fraction
//!   are texts, and [`Value`] has makers for every other one.
//! - [`Environment::new`] makes an environment whose globals are the functions `range`, `dict` and `namespace`, and
//!   [`Environment::empty`] one without globals.
//! - [`Environment::add_template`] adds a template in the place of one of that name, or refuses it and
//!   changes nothing; [`Environment::add_template_owned`] keeps copies of its texts. [`Environment::get_template`]
//!   finds it, and [`Environment::remove_template`] takes it away.
//! - [`Template::render`] gives its text over a context, and [`Template::render_captured_to`] writes it into a
//!   [`Sink`]: a `String`, a [`WriteWrapper`] over a writer, or a [`NullWriter`]. [`Captured`] is what a render
//!   leaves, with its [`State`], which knows the names that were stored.
//! - An [`Output`] is a sink with captures over it: [`Output::write_str`] writes a text, and [`Output::write_escaped`] that of a
//!   value under an escape.
//! - [`State::render_block`] gives the text of a block over what a render left, and [`State::render_block_to_write`] writes
//!   it into a [`Sink`]; [`State::get_template`] finds the template that a name means there.
//! - [`Environment::render_str`] renders a source that does not stand.
//! - [`Environment::compile_expression`] compiles an expression that stands alone, and [`Expression::eval`] gives its
//!   value over a context, with a map for each namespace in it.
//! - [`Environment::add_global`] puts a value under a name, which each render finds where nothing else has the name;
//!   [`Environment::remove_global`] takes it away, and [`Environment::globals`] lists them.
//! - [`Environment::extended`] makes an environment for what a user brings by the types of an [`Extension`]: then
//!   [`Environment::add_filter`], [`Environment::add_test`] and [`Environment::add_function`] take values of a type that is
//!   [`Callable`], and [`Environment::set_unknown_method_callback`] one that is an [`UnknownMethod`]. Each answers by an
//!   [`Answer`], from its arguments and what it sees of the run, a [`CallView`]. [`State::apply_filter`] and
//!   [`State::perform_test`] call filters and tests without a render, and [`State::call_macro`] a macro that a render left.
//! - There [`Environment::set_formatter`] takes a [`Formatter`] too: it says by a [`FormatAnswer`] what is printed in the
//!   place of each value, and [`State::format`] gives that text; [`escape_formatter`] writes the text that a value has without a
//!   formatter into a [`Sink`]. [`Environment::set_path_join_callback`] takes a [`PathJoin`], which says which template a name
//!   means that stands in another template.
//! - [`Environment::set_fuel`] bounds each render by its steps, and [`State::fuel_levels`] tells what one
//!   consumed; [`Environment::set_recursion_limit`] bounds how deep it may be.
//! - [`Environment::set_undefined_behavior`] says what may be done with undefined values, and
//!   [`Environment::set_syntax`] how templates are written. [`Environment::set_auto_escape_callback`] takes an
//!   [`AutoEscapeRule`] of the [`Extension`], which gives the escape of each name from then on.
//! - [`Environment::context_names`] gives the names of a context that can matter to a render.
//! - [`verify`] accepts instructions from anywhere that never lack an operand, a frame, a loop, an escape or a
//!   capture, and [`check_template`] has the streams of a [`CompiledTemplate`] accepted. [`FuelTracker`] counts a fuel down along
//!   instructions.
//!
//! # What is proved
//!
//! A render writes the text and ends as the meaning of the template's tree says, for the templates that
//! stand, the context, the escape of its name and the fuel. It may also want memory or meet a failing sink,
//! and then a beginning of the text is written. [`every_render_ends`] says that every render ends, [`every_block_ends`] and
//! [`every_call_ends`] that so do blocks, filters, tests and macros that a state is asked for, and [`one_meaning`] that
//! this is in one way: [`every_template_runs`] and [`every_expression_runs`] that nothing is accepted but what runs.
//! [`isolated_renders`] says that a render takes no more of its context than the names that are listed, and
//! [`expression_isolation`] that an expression takes no more than those that stand in it, where nothing that a user brought
//! asks for a name, as [`none_ask_names`] says where nothing can be brought; [`plain_renders`] what a text without markers gives;
//! [`enough_is_enough`], [`fuel_adds_up`] and [`writes_beginning`] are the laws of fuel, and
//! [`good_ends_well`] that of verified instructions. By [`faults_are_meant`] no fault of a template is told as want of
//! memory, however many includes it happened in, where what a user brought states none so. An expression gives the value that its tree means under the fuel,
//! or its fault, unless it wants memory; [`every_evaluation_gives`] says that it is one of the two, and
//! [`every_expression_gives`] that it stays so where the value is handed out.
#![tactic(auto)]

pub use template_callables::Answer;
pub use template_callables::CallView;
pub use template_callables::Callable;
pub use template_callables::Either;
pub use template_callables::Extension;
pub use template_callables::FormatAnswer;
pub use template_callables::Formatter;
pub use template_callables::Further;
pub use template_callables::NoCallable;
pub use template_callables::NoExtension;
pub use template_callables::NoFormatter;
pub use template_callables::NoJoin;
pub use template_callables::NoMethod;
pub use template_callables::PathJoin;
pub use template_callables::Temps;
pub use template_callables::UnknownMethod;
pub use template_callables::copy_all;
pub use template_compiled::CheckedBlock;
pub use template_compiled::CheckedTemplate;
pub use template_compiled::CompiledTemplate;
pub use template_compiled::TemplateConfig;
pub use template_compiled::check_template;
pub use template_compiler_code::CaptureMode;
pub use template_compiler_code::CompiledBlock;
pub use template_compiler_code_shapes::Checked;
pub use template_compiler_code_shapes::StreamKind;
pub use template_compiler_code_shapes::certified_is_good;
pub use template_compiler_code_shapes::good_ends_well;
pub use template_compiler_code_shapes::good_goes_on;
pub use template_compiler_code_shapes::verify;
pub use template_compiler_process::enough_is_enough;
pub use template_compiler_process::fuel_adds_up;
pub use template_compiler_process::writes_beginning;
pub use template_compiler_syntax::StartMarker;
pub use template_compiler_syntax::SyntaxConfig;
pub use template_compiler_syntax::SyntaxConfigBuilder;
pub use template_machine_environment::Captured;
pub use template_machine_environment::Environment;
pub use template_machine_environment::Expression;
pub use template_machine_environment::State;
pub use template_machine_environment::Template;
pub use template_machine_environment::UsesState;
pub use template_machine_environment::escape_formatter;
pub use template_machine_environment::every_block_ends;
pub use template_machine_environment::every_call_ends;
pub use template_machine_environment::every_expression_runs;
pub use template_machine_environment::every_render_ends;
pub use template_machine_environment::every_template_runs;
pub use template_machine_environment::isolated_renders;
pub use template_machine_environment::namespace;
pub use template_machine_environment::none_ask_names;
pub use template_machine_environment::plain_renders;
pub use template_machine_environment::undeclared_names_matter;
pub use template_machine_frames::Closures;
pub use template_machine_frames::Context;
pub use template_machine_frames::Frame;
pub use template_machine_frames::LoopState;
pub use template_machine_going::FuelTracker;
pub use template_machine_meaning::every_evaluation_gives;
pub use template_machine_meaning::every_expression_gives;
pub use template_machine_meaning::every_run_ends;
pub use template_machine_meaning::expression_faults_are_meant;
pub use template_machine_meaning::expression_isolation;
pub use template_machine_meaning::faults_are_meant;
pub use template_machine_meaning::isolation;
pub use template_machine_meaning::one_meaning;
pub use template_machine_operands::Operands as Stack;
pub use template_machine_operations::dict;
pub use template_machine_operations::module_from;
pub use template_machine_operations::range;
pub use template_machine_state::Behind;
pub use template_machine_state::Body;
pub use template_machine_state::Caller;
pub use template_machine_state::Home;
pub use template_machine_state::MacroRecord as Macro;
pub use template_machine_state::Rounds;
pub use template_machine_state::State as MachineState;
pub use template_machine_state::Stream;
pub use template_machine_surroundings::AutoEscapeRule;
pub use template_machine_surroundings::EscapeRule;
pub use template_machine_surroundings::NoRule;
pub use template_machine_surroundings::NullWriter;
pub use template_machine_surroundings::Sink;
pub use template_machine_surroundings::SinkFault;
pub use template_machine_surroundings::StateIds;
pub use template_machine_surroundings::WriteWrapper;
pub use template_machine_surroundings::Writer;
pub use template_machine_surroundings::default_auto_escape_callback;
pub use template_machine_surroundings::one_escape;
pub use template_machine_surroundings::one_rule;
pub use template_machine_surroundings::write_text;
pub use template_machine_tables::BlockStack;
pub use template_machine_tables::Globals;
pub use template_output::Output;
pub use template_values_core::Content;
pub use template_values_core::Entry;
pub use template_values_core::Value;
pub use template_values_errors::AutoEscape;
pub use template_values_errors::Error;
pub use template_values_errors::ErrorKind;
pub use template_values_errors::Place;
pub use template_values_errors::UndefinedBehavior;
pub use template_values_items::Items;
pub use template_values_json::ContextError;
pub use template_values_json::Floats;
pub use template_values_json::context_from_json;
pub use template_values_json::context_from_json_with;
pub use template_values_json::entries_from_json;
