// One line of a table: its kind by its letter, its turn, and its figures within their ranges.
ghost use Rattle.std.specs.Prelude.{◌≡◌, ◌≤◌, true, false, ◌⊎◌, length, IfSome, IfNone, MatchOption, MatchResult, ◌≢◌};
ghost use Rattle.std.specs.Option.{option_to_list};
ghost use Rattle.fields.specs.Limits.{admitted};
ghost use Rattle.texts.specs.Lines.{kind_by, next_phase, Figures, OutOf, LineRead, LineRefused, fields_of, message_fields, values_of_message, all_admitted, firsts, message_of_line, periodic_of_line, window_of_line};
ghost use Rattle.texts.specs.declared.line.Kind.TheVariants as kind;

use crate::fault::LineFault;
use crate::form::{Form, form_of};
use books::periodic::PeriodicMessage;
use books::window::WindowMessage;
use fields::limits::{Field, admits};
use fields::refusal::Reason;
use plan::draft::Message;

#[derive(Clone, Copy)]
pub enum Kind {
    Bus,
    Node,
    Periodic,
    Window,
}

// What comes next: the bus line, then nodes until the first message, then messages.
#[derive(Clone, Copy)]
pub enum Phase {
    Bus,
    Nodes,
    Messages,
}

// What a line says.
#[derive(Clone, Copy)]
pub enum Line {
    Bus(u16, u16, u16, u16),
    Node(u16, u16),
    // with period and jitter
    Periodic(Message, u32, u32),
    // with the releases of a window and its length
    Window(Message, u16, u32),
}

impl Line {
    // The message of a P or a W line.
    pub fn message(&self) -> Option<Message>
        ensures { option_to_list result ≡ message_of_line self.now }
    {
        match *self {
            Line::Periodic(message, _, _) | Line::Window(message, _, _) => Some(message),
            _ => None,
        }
    }

    // The message of a P line, as a book lists it. That of a W line has other fields, so the two are one match each.
    pub fn periodic(&self) -> Option<PeriodicMessage>
        ensures { option_to_list result ≡ periodic_of_line self.now }
    {
        match *self {
            Line::Periodic(message, period, jitter) => Some(PeriodicMessage {
                number: message.number,
                period,
                jitter,
            }),
            _ => None,
        }
    }

    // The message of a W line, as a book lists it.
    pub fn window(&self) -> Option<WindowMessage>
        ensures { option_to_list result ≡ window_of_line self.now }
    {
        match *self {
            Line::Window(message, releases, window) => Some(WindowMessage {
                number: message.number,
                releases,
                window,
            }),
            _ => None,
        }
    }
}

// The kind of line that a letter and its count of numbers say.
fn kind_of(form: &Form) -> Option<Kind>
    ensures { result ≡ kind_by form.now.letter form.now.count }
{
    match (char::from(form.letter), form.count) {
        ('B', 4) => Some(Kind::Bus),
        ('N', 2) => Some(Kind::Node),
        ('P', 8) => Some(Kind::Periodic),
        ('W', 8) => Some(Kind::Window),
        _ => None,
    }
}

// The phase after a line of this kind, where it is in turn.
fn phase_after(phase: Phase, kind: Kind) -> Option<Phase>
    ensures { result ≡ next_phase phase kind }
{
    match (phase, kind) {
        (Phase::Bus, Kind::Bus) => Some(Phase::Nodes),
        (Phase::Nodes, Kind::Node) => Some(Phase::Nodes),
        (Phase::Nodes | Phase::Messages, Kind::Periodic | Kind::Window) => Some(Phase::Messages),
        _ => None,
    }
}

// A figure within its range.
fn figure<T: TryFrom<u64>>(field: Field, value: u64) -> Option<T>
where
    T::Error: Drop,
    ensures some { IfSome result (λ x. T.try_from_gives value (Ok x) × (admitted field value ≡ true)) }
    ensures none { IfNone result ((admitted field value ≢ true) ⊎ ((e : T.Error) × T.try_from_gives value (Err e))) }
{
    if !admits(field, value) {
        return None;
    }
    T::try_from(value).ok()
}

fn bus_of(values: &[u64]) -> Option<Line>
    ensures { length values.now ≡ 4 → MatchOption result (OutOf kind.Bus values.now) (Figures kind.Bus values.now) }
{
    let [cycle, offset, minislot, minislots] = values else {
        return None;
    };
    let cycle = figure(Field::Cycle, *cycle)?;
    let offset = figure(Field::Offset, *offset)?;
    let minislot = figure(Field::Minislot, *minislot)?;
    let minislots = figure(Field::Minislots, *minislots)?;
    Some(Line::Bus(cycle, offset, minislot, minislots))
}

fn node_of(values: &[u64]) -> Option<Line>
    ensures { length values.now ≡ 2 → MatchOption result (OutOf kind.Node values.now) (Figures kind.Node values.now) }
{
    let [number, latest] = values else {
        return None;
    };
    let number = figure(Field::Node, *number)?;
    let latest = figure(Field::LastStart, *latest)?;
    Some(Line::Node(number, latest))
}

// The figures that messages of both kinds begin with.
fn message_of(values: &[u64]) -> Option<Message>
    ensures { 6 ≤ length values.now → MatchOption result (all_admitted message_fields values.now 0 ≡ false) (λ m. (values_of_message m ≡ firsts message_fields values.now 0) × (all_admitted message_fields values.now 0 ≡ true)) }
{
    let [number, frame, node, priority, size, deadline, ..] = values else {
        return None;
    };
    let number = figure(Field::Message, *number)?;
    let frame = figure(Field::Frame, *frame)?;
    let node = figure(Field::Node, *node)?;
    let priority = figure(Field::Priority, *priority)?;
    let size = figure(Field::Size, *size)?;
    let deadline = figure(Field::Deadline, *deadline)?;
    Some(Message {
        number,
        frame,
        node,
        priority,
        size,
        deadline,
    })
}

fn periodic_of(values: &[u64]) -> Option<Line>
    ensures { length values.now ≡ 8 → MatchOption result (OutOf kind.Periodic values.now) (Figures kind.Periodic values.now) }
{
    let [_, _, _, _, _, _, period, jitter] = values else {
        return None;
    };
    let message = message_of(values)?;
    let period = figure(Field::Period, *period)?;
    let jitter = figure(Field::Jitter, *jitter)?;
    Some(Line::Periodic(message, period, jitter))
}

fn window_of(values: &[u64]) -> Option<Line>
    ensures { length values.now ≡ 8 → MatchOption result (OutOf kind.Window values.now) (Figures kind.Window values.now) }
{
    let [_, _, _, _, _, _, releases, window] = values else {
        return None;
    };
    let message = message_of(values)?;
    let releases = figure(Field::Releases, *releases)?;
    let window = figure(Field::Window, *window)?;
    Some(Line::Window(message, releases, window))
}

fn figures_of(kind: Kind, values: &[u64]) -> Option<Line>
    ensures { length values.now ≡ length (fields_of kind) → MatchOption result (OutOf kind values.now) (Figures kind values.now) }
{
    match kind {
        Kind::Bus => bus_of(values),
        Kind::Node => node_of(values),
        Kind::Periodic => periodic_of(values),
        Kind::Window => window_of(values),
    }
}

// A line that is in turn, and what comes after it.
#[derive(Clone, Copy)]
pub struct Step {
    pub line: Line,
    pub next: Phase,
}

// What a line says, without its line feed. A line of no admitted form or out of turn is refused before its ranges count.
pub fn line_of(bytes: &[u8], phase: Phase, number: u32) -> Result<Step, LineFault>
    ensures { MatchResult result (LineRead bytes.now phase) (LineRefused bytes.now phase number) }
{
    let malformed = LineFault {
        reason: Reason::Malformed,
        line: number,
    };
    let form = form_of(bytes).ok_or(malformed)?;
    let kind = kind_of(&form).ok_or(malformed)?;
    let next = phase_after(phase, kind).ok_or(malformed)?;
    let line = figures_of(kind, &form.values[..form.count]).ok_or(LineFault {
        reason: Reason::OutOfRange,
        line: number,
    })?;
    Ok(Step { line, next })
}
