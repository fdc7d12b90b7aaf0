// The text of a generated program.

ghost use Rattle.std.specs.Prelude.{◌≡◌, ◌++◌, ◌<◌, IfOk, OnOk};
ghost use Rattle.std.specs.Fmt.{decimal};
ghost use Rattle.program_generator.specs.Generation.{behind_method, choice_of, classes_text, closing_text, following, method_text, methods_text, opening_text, program_text, statement_text, statements_text, variables_text};

use rlc_base::{NoMemory, Text};
use std::alloc::Global;

// The number behind a number of the sequence.
fn following(state: u64) -> u64
    requires { state < 4294967296 }
    ensures next { result ≡ following state }
    ensures small { result < 4294967296 }
{
    (state * 1_103_515_245 + 12_345) % 2_147_483_648
}

// The statement of this number.
fn statement(number: u64) -> &'static [u8]
    ensures { result.now ≡ statement_text number }
{
    match number {
        0 => b"a.close(); ",
        1 => b"a = new Sock(); ",
        2 => b"if (c) { a = new Sock(); } ",
        _ => b"b = a; ",
    }
}

// Appends the statement of a number of the sequence.
fn push_statement(into: &mut Text, state: u64) -> Result<(), NoMemory>
    ensures { OnOk result (into.new ≡ into.old ++ statement_text (choice_of state)) }
{
    into.push_bytes(statement(state / 65_536 % 4))
}

// Appends the three statements behind a number of the sequence, and gives the number behind them.
fn push_statements(into: &mut Text, seed: u64) -> Result<u64, NoMemory>
    requires { seed < 4294967296 }
    ensures text { OnOk result (into.new ≡ into.old ++ statements_text 3 seed) }
    ensures next { IfOk result (λ state. state ≡ behind_method seed) }
    ensures small { IfOk result (λ state. state < 4294967296) }
{
    let first = following(seed);
    push_statement(into, first)?;
    let second = following(first);
    push_statement(into, second)?;
    let third = following(second);
    push_statement(into, third)?;
    Ok(third)
}

// The class of the sockets, and the line that begins the class of the methods.
fn classes() -> &'static [u8]
    ensures { result.now ≡ classes_text }
{
    b"@InheritableMustCall(\"close\") class Sock { void close() { } }\nclass Main {\n"
}

// What stands in front of a method's number.
fn opening() -> &'static [u8]
    ensures { result.now ≡ opening_text }
{
    b"static void m"
}

// What stands between a method's number and its statements.
fn variables() -> &'static [u8]
    ensures { result.now ≡ variables_text }
{
    b"(boolean c) { Sock a = null; Sock b = null; "
}

// The end of a method or of the class.
fn closing() -> &'static [u8]
    ensures { result.now ≡ closing_text }
{
    b"}\n"
}

// Appends a number in decimal.
fn push_number(alloc: Global, into: &mut Text, number: u32) -> Result<(), NoMemory>
    ensures { OnOk result (into.new ≡ into.old ++ decimal number) }
{
    let digits = format!(in alloc; "{number}")?;
    into.push_bytes(digits.as_bytes())
}

// Appends the line of the method of this number, and gives the number of the sequence behind it.
fn push_method(alloc: Global, into: &mut Text, number: u32, seed: u64) -> Result<u64, NoMemory>
    requires { seed < 4294967296 }
    ensures text { OnOk result (into.new ≡ into.old ++ method_text number seed) }
    ensures next { IfOk result (λ state. state ≡ behind_method seed) }
    ensures small { IfOk result (λ state. state < 4294967296) }
{
    into.push_bytes(opening())?;
    push_number(alloc, into, number)?;
    into.push_bytes(variables())?;
    let state = push_statements(into, seed)?;
    into.push_bytes(closing())?;
    Ok(state)
}

/// The file `Gen.java` of a seed and a count of methods: the class `Sock`, which must be closed, and a class `Main` whose
/// methods each make sockets and close some of them. Each method has three statements, chosen by a linear congruential
/// sequence that begins with the seed. It fails only where memory runs out.
pub fn generate(alloc: Global, seed: u32, methods: u32) -> Result<Text, NoMemory>
    ensures { IfOk result (λ text. text ≡ program_text seed methods) }
{
    let mut text = Text::new(alloc);
    text.push_bytes(classes())?;
    let mut state = u64::from(seed);
    'each: for number in 0..methods {
        state = push_method(alloc, &mut text, number, state)?;
    }
    text.push_bytes(closing())?;
    Ok(text)
}
