// Trees in words. A node stands in parentheses, its kind first, as in `(- (- a b) c)`; a part that is left out is `_`. With
// places, `@LINE:COLUMN` stands behind each word whose part of the tree has a place.

use java_syntax::{
    Anno, AnnoValue, Block, Catch, ClassDecl, ConstructorDecl, Expr, ForStart, Import,
    InfixOperator, Local, Member, MethodDecl, Modifier, Name, Param, PrefixOperator, PrimitiveName,
    Resource, StepOperator, Stmt, Typ, TypeName, Unit, Variable,
};
use rlc_base::{Pos, Refusal, Text};
use std::alloc::Global;

// What was written so far.
#[derive(Drop)]
pub struct Printer {
    text: String,
    with_places: bool,
    // Whether memory ran out. Nothing more is written then.
    is_short: bool,
}

impl Printer {
    pub fn new(alloc: Global, with_places: bool) -> Printer {
        Printer {
            text: String::new(alloc),
            with_places,
            is_short: false,
        }
    }

    // What was written, where there was memory for all of it.
    pub fn into_text(self) -> Option<String> {
        let Printer {
            text,
            with_places: _,
            is_short,
        } = self;
        if is_short { None } else { Some(text) }
    }

    // Writes a piece of a word.
    fn push(&mut self, piece: &str) {
        if self.is_short || self.text.push_str(piece).is_err() {
            self.is_short = true;
        }
    }

    // Writes the digits of a number.
    fn digits(&mut self, number: usize) {
        if self.is_short || write!(self.text, "{number}").is_err() {
            self.is_short = true;
        }
    }

    // Parts the next word from what stands before it.
    fn part(&mut self) {
        if !self.text.is_empty() {
            self.push(" ");
        }
    }

    fn place(&mut self, pos: Pos) {
        if self.with_places {
            self.push("@");
            self.digits(pos.line as usize);
            self.push(":");
            self.digits(pos.col as usize);
        }
    }

    // A word of two pieces with its place.
    fn joined(&mut self, front: &str, rest: &str, pos: Pos) {
        self.part();
        self.push(front);
        self.push(rest);
        self.place(pos);
    }

    // A word with its place.
    pub fn word(&mut self, word: &str, pos: Pos) {
        self.joined(word, "", pos);
    }

    // A word that has no place.
    pub fn bare(&mut self, word: &str) {
        self.part();
        self.push(word);
    }

    // With places, the bytes of a token: the first one, their number, and its place.
    pub fn span(&mut self, start: u32, len: u32, pos: Pos) {
        if self.with_places {
            self.part();
            self.digits(start as usize);
            self.push("+");
            self.digits(len as usize);
        }
        self.place(pos);
    }

    // A number.
    pub fn number(&mut self, number: usize) {
        self.part();
        self.digits(number);
    }

    // The code of a refusal, and its place.
    pub fn refusal(&mut self, refusal: Refusal) {
        self.number(refusal.code.number() as usize);
        self.number(refusal.pos.line as usize);
        self.push(":");
        self.digits(refusal.pos.col as usize);
    }

    // Nothing more is written.
    pub fn fall_short(&mut self) {
        self.is_short = true;
    }

    // The begin of a node whose word has two pieces.
    fn open_joined(&mut self, front: &str, rest: &str, pos: Pos) {
        self.open_bare(front);
        self.push(rest);
        self.place(pos);
    }

    // The begin of a node.
    fn open(&mut self, word: &str, pos: Pos) {
        self.open_joined(word, "", pos);
    }

    // The begin of a node that has no place.
    fn open_bare(&mut self, word: &str) {
        self.part();
        self.push("(");
        self.push(word);
    }

    // The begin of a node, and a text that belongs to its place.
    fn open_named(&mut self, word: &str, name: &Text, pos: Pos) {
        self.open(word, pos);
        self.bare(shown(name));
    }

    fn close(&mut self) {
        self.push(")");
    }

    fn name(&mut self, name: &Name) {
        self.word(shown(&name.text), name.pos);
    }

    // A node of names, which is left out where there are none.
    fn names(&mut self, word: &str, names: &[Name]) {
        if names.is_empty() {
            return;
        }
        self.open_bare(word);
        for name in names {
            self.name(name);
        }
        self.close();
    }

    pub fn typ(&mut self, typ: &Typ) {
        let brackets = if typ.is_array { "[]" } else { "" };
        self.joined(type_word(&typ.name), brackets, typ.pos);
    }
}

fn shown(text: &Text) -> &str {
    str::from_utf8(text.bytes()).unwrap_or("?")
}

fn type_word(name: &TypeName) -> &str {
    match name {
        TypeName::Primitive(PrimitiveName::Boolean) => "boolean",
        TypeName::Primitive(PrimitiveName::Byte) => "byte",
        TypeName::Primitive(PrimitiveName::Char) => "char",
        TypeName::Primitive(PrimitiveName::Int) => "int",
        TypeName::Primitive(PrimitiveName::Long) => "long",
        TypeName::Named(text) => shown(text),
    }
}

fn prefix_word(operator: PrefixOperator) -> &'static str {
    match operator {
        PrefixOperator::Plus => "+",
        PrefixOperator::Minus => "-",
        PrefixOperator::Not => "!",
        PrefixOperator::Complement => "~",
    }
}

fn step_word(operator: StepOperator) -> &'static str {
    match operator {
        StepOperator::Increment => "++",
        StepOperator::Decrement => "--",
    }
}

fn infix_word(operator: InfixOperator) -> &'static str {
    match operator {
        InfixOperator::Multiply => "*",
        InfixOperator::Divide => "/",
        InfixOperator::Remainder => "%",
        InfixOperator::Add => "+",
        InfixOperator::Subtract => "-",
        InfixOperator::ShiftLeft => "<<",
        InfixOperator::ShiftRight => ">>",
        InfixOperator::ShiftRightUnsigned => ">>>",
        InfixOperator::Less => "<",
        InfixOperator::Greater => ">",
        InfixOperator::LessOrEqual => "<=",
        InfixOperator::GreaterOrEqual => ">=",
        InfixOperator::Equal => "==",
        InfixOperator::NotEqual => "!=",
        InfixOperator::And => "&",
        InfixOperator::Xor => "^",
        InfixOperator::Or => "|",
        InfixOperator::ConditionalAnd => "&&",
        InfixOperator::ConditionalOr => "||",
    }
}

// The begin of a node of an expression, with what it holds besides expressions. An expression that holds no others is
// written whole.
fn write_head(out: &mut Printer, expr: &Expr) {
    match expr {
        Expr::Literal { text, pos } => out.word(shown(text), *pos),
        Expr::Identifier { name, pos } => out.word(shown(name), *pos),
        Expr::This { pos } => out.word("this", *pos),
        Expr::Call { name, pos, .. } => out.open_named("call", name, *pos),
        Expr::SuperCall { name, pos, .. } => out.open_named("super-call", name, *pos),
        Expr::MethodCall { name, pos, .. } => out.open_named("method-call", name, *pos),
        Expr::FieldAccess { name, pos, .. } => out.open_named("field", name, *pos),
        Expr::Index { pos, .. } => out.open("index", *pos),
        Expr::NewObject { class, pos, .. } => {
            out.open("new", *pos);
            out.name(class);
        }
        Expr::NewArray { element, pos, .. } => {
            out.open("new-array", *pos);
            out.typ(element);
        }
        _ => write_operator(out, expr),
    }
}

// The begin of a node of an expression with an operator.
fn write_operator(out: &mut Printer, expr: &Expr) {
    match expr {
        Expr::Prefix { operator, pos, .. } => out.open(prefix_word(*operator), *pos),
        Expr::PrefixStep { operator, pos, .. } => out.open(step_word(*operator), *pos),
        Expr::PostfixStep { operator, pos, .. } => {
            out.open_joined("post", step_word(*operator), *pos);
        }
        Expr::Cast { typ, pos, .. } => {
            out.open("cast", *pos);
            out.typ(typ);
        }
        Expr::Infix { operator, pos, .. } => out.open(infix_word(*operator), *pos),
        Expr::InstanceOf { typ, pos, .. } => {
            out.open("instanceof", *pos);
            out.typ(typ);
        }
        Expr::Conditional { pos, .. } => out.open("?", *pos),
        Expr::Assignment { pos, .. } => out.open("=", *pos),
        Expr::CompoundAssignment { operator, pos, .. } => {
            out.open_joined(infix_word(*operator), "=", *pos);
        }
        _ => {}
    }
}

pub fn write_expression(out: &mut Printer, expr: &Expr) {
    write_head(out, expr);
    match expr {
        Expr::Literal { .. } | Expr::Identifier { .. } | Expr::This { .. } => return,
        Expr::FieldAccess { target: one, .. }
        | Expr::MethodCall { target: one, .. }
        | Expr::NewArray { length: one, .. }
        | Expr::Prefix { operand: one, .. }
        | Expr::PrefixStep { operand: one, .. }
        | Expr::PostfixStep { operand: one, .. }
        | Expr::Cast { operand: one, .. }
        | Expr::InstanceOf { operand: one, .. }
        | Expr::Index { array: one, .. }
        | Expr::Infix { left: one, .. }
        | Expr::Assignment { left: one, .. }
        | Expr::CompoundAssignment { left: one, .. }
        | Expr::Conditional { condition: one, .. } => write_expression(out, one),
        _ => {}
    }
    match expr {
        Expr::Index { index: two, .. }
        | Expr::Infix { right: two, .. }
        | Expr::Assignment { right: two, .. }
        | Expr::CompoundAssignment { right: two, .. }
        | Expr::Conditional { when_true: two, .. } => write_expression(out, two),
        _ => {}
    }
    if let Expr::Conditional { when_false, .. } = expr {
        write_expression(out, when_false);
    }
    if let Expr::Call { arguments, .. }
    | Expr::SuperCall { arguments, .. }
    | Expr::MethodCall { arguments, .. }
    | Expr::NewObject { arguments, .. } = expr
    {
        for argument in arguments {
            write_expression(out, argument);
        }
    }
    out.close();
}

fn write_each(out: &mut Printer, expressions: &[Expr]) {
    for expression in expressions {
        write_expression(out, expression);
    }
}

fn write_expressions(out: &mut Printer, word: &str, expressions: &[Expr]) {
    out.open_bare(word);
    write_each(out, expressions);
    out.close();
}

#[cycle(annotations)]
pub fn write_annotation(out: &mut Printer, annotation: &Anno) {
    out.open("@", annotation.pos);
    out.name(&annotation.name);
    for argument in &annotation.arguments {
        match &argument.key {
            None => write_value(out, &argument.value),
            Some(key) => {
                out.open_bare("pair");
                out.name(key);
                write_value(out, &argument.value);
                out.close();
            }
        }
    }
    out.close();
}

#[cycle(annotations)]
fn write_value(out: &mut Printer, value: &AnnoValue) {
    match value {
        AnnoValue::Expression(expression) => write_expression(out, expression),
        AnnoValue::Annotation(annotation) => write_annotation(out, annotation),
        AnnoValue::List { values, pos } => {
            out.open("list", *pos);
            for value in values {
                write_value(out, value);
            }
            out.close();
        }
    }
}

fn write_modifiers(out: &mut Printer, modifiers: &[Modifier]) {
    for modifier in modifiers {
        match modifier {
            Modifier::Annotation(annotation) => write_annotation(out, annotation),
            Modifier::Public => out.bare("public"),
            Modifier::Protected => out.bare("protected"),
            Modifier::Private => out.bare("private"),
            Modifier::Static => out.bare("static"),
            Modifier::Final => out.bare("final"),
            Modifier::Abstract => out.bare("abstract"),
        }
    }
}

fn write_variables(out: &mut Printer, variables: &[Variable]) {
    for variable in variables {
        let name = &variable.name;
        match &variable.initializer {
            None => out.name(name),
            Some(value) => {
                out.open(shown(&name.text), name.pos);
                write_expression(out, value);
                out.close();
            }
        }
    }
}

// What stands in the node of a declaration of local variables.
fn write_local(out: &mut Printer, local: &Local) {
    write_modifiers(out, &local.modifiers);
    out.typ(&local.typ);
    write_variables(out, &local.variables);
}

fn write_start(out: &mut Printer, start: &ForStart) {
    match start {
        ForStart::Expressions(expressions) => write_expressions(out, "start", expressions),
        ForStart::Declaration(local) => {
            out.open_bare("local");
            write_local(out, local);
            out.close();
        }
    }
}

fn write_resources(out: &mut Printer, resources: &[Resource]) {
    for resource in resources {
        out.open_bare("resource");
        write_modifiers(out, &resource.modifiers);
        out.name(&resource.class);
        out.name(&resource.name);
        write_expression(out, &resource.value);
        out.close();
    }
}

fn write_optional(out: &mut Printer, expression: &Option<Expr>) {
    match expression {
        None => out.bare("_"),
        Some(expression) => write_expression(out, expression),
    }
}

// What stands in the parentheses of a `for`.
fn write_for_head(out: &mut Printer, start: &ForStart, condition: &Option<Expr>, updates: &[Expr]) {
    write_start(out, start);
    write_optional(out, condition);
    write_expressions(out, "updates", updates);
}

// The begin of the node of a statement, with what it holds besides statements. A statement that holds nothing is written
// whole.
fn write_statement_head(out: &mut Printer, statement: &Stmt) {
    match statement {
        Stmt::Block(_) => {}
        Stmt::Empty { pos } => out.word(";", *pos),
        Stmt::Break { pos } => out.word("break", *pos),
        Stmt::Continue { pos } => out.word("continue", *pos),
        Stmt::Return { value: None, pos } => out.word("return", *pos),
        Stmt::Local { local, pos } => {
            out.open("local", *pos);
            write_local(out, local);
        }
        Stmt::Expression {
            expression: value,
            pos,
        } => open_with(out, "expression", *pos, value),
        Stmt::If { condition, pos, .. } => open_with(out, "if", *pos, condition),
        Stmt::While { condition, pos, .. } => open_with(out, "while", *pos, condition),
        Stmt::Do { pos, .. } => out.open("do", *pos),
        Stmt::For {
            start,
            condition,
            updates,
            pos,
            ..
        } => {
            out.open("for", *pos);
            write_for_head(out, start, condition, updates);
        }
        Stmt::Try { resources, pos, .. } => {
            out.open("try", *pos);
            write_resources(out, resources);
        }
        Stmt::Return {
            value: Some(value),
            pos,
        } => open_with(out, "return", *pos, value),
        Stmt::Throw { value, pos } => open_with(out, "throw", *pos, value),
    }
}

// The begin of a node, and an expression in it.
fn open_with(out: &mut Printer, word: &str, pos: Pos, expression: &Expr) {
    out.open(word, pos);
    write_expression(out, expression);
}

#[cycle(statements)]
pub fn write_statement(out: &mut Printer, statement: &Stmt) {
    write_statement_head(out, statement);
    match statement {
        Stmt::Empty { .. } | Stmt::Break { .. } | Stmt::Continue { .. } => return,
        Stmt::Return { value: None, .. } => return,
        Stmt::Block(block) => return write_block(out, block),
        Stmt::If {
            then,
            otherwise,
            ..
        } => {
            write_statement(out, then);
            if let Some(otherwise) = otherwise {
                write_statement(out, otherwise);
            }
        }
        Stmt::While { body, .. } | Stmt::For { body, .. } => write_statement(out, body),
        Stmt::Do {
            body,
            condition,
            ..
        } => {
            write_statement(out, body);
            write_expression(out, condition);
        }
        Stmt::Try {
            block,
            catches,
            finally,
            ..
        } => {
            write_block(out, block);
            for catch in catches {
                write_catch(out, catch);
            }
            write_finally(out, finally);
        }
        _ => {}
    }
    out.close();
}

#[cycle(statements)]
fn write_finally(out: &mut Printer, finally: &Option<Block>) {
    if let Some(block) = finally {
        out.open_bare("finally");
        write_block(out, block);
        out.close();
    }
}

#[cycle(statements)]
fn write_catch(out: &mut Printer, catch: &Catch) {
    out.open_bare("catch");
    write_modifiers(out, &catch.modifiers);
    out.names("classes", &catch.classes);
    out.name(&catch.name);
    write_block(out, &catch.block);
    out.close();
}

#[cycle(statements)]
pub fn write_block(out: &mut Printer, block: &Block) {
    out.open("block", block.pos);
    for statement in &block.statements {
        write_statement(out, statement);
    }
    if out.with_places {
        out.word("end", block.end);
    }
    out.close();
}

fn write_parameter(out: &mut Printer, word: &str, parameter: &Param) {
    out.open_bare(word);
    write_modifiers(out, &parameter.modifiers);
    out.typ(&parameter.typ);
    out.name(&parameter.name);
    out.close();
}

fn write_parameters(out: &mut Printer, receiver: &Option<Param>, parameters: &[Param]) {
    if let Some(receiver) = receiver {
        write_parameter(out, "receiver", receiver);
    }
    for parameter in parameters {
        write_parameter(out, "parameter", parameter);
    }
}

fn write_method(out: &mut Printer, method: &MethodDecl) {
    out.open_bare("method");
    write_modifiers(out, &method.modifiers);
    match &method.result {
        None => out.bare("void"),
        Some(typ) => out.typ(typ),
    }
    out.name(&method.name);
    write_parameters(out, &method.receiver, &method.parameters);
    out.names("throws", &method.throws);
    if let Some(body) = &method.body {
        write_block(out, body);
    }
    out.close();
}

fn write_constructor(out: &mut Printer, constructor: &ConstructorDecl) {
    out.open_bare("constructor");
    write_modifiers(out, &constructor.modifiers);
    out.name(&constructor.name);
    write_parameters(out, &constructor.receiver, &constructor.parameters);
    out.names("throws", &constructor.throws);
    if let Some(body) = &constructor.body {
        if let Some(call) = &body.super_call {
            out.open("super", call.pos);
            write_each(out, &call.arguments);
            out.close();
        }
        write_block(out, &body.block);
    }
    out.close();
}

pub fn write_member(out: &mut Printer, member: &Member) {
    match member {
        Member::Field(fields) => {
            out.open_bare("fields");
            write_modifiers(out, &fields.modifiers);
            out.typ(&fields.typ);
            write_variables(out, &fields.variables);
            out.close();
        }
        Member::Method(method) => write_method(out, method),
        Member::Constructor(constructor) => write_constructor(out, constructor),
    }
}

fn write_class(out: &mut Printer, class: &ClassDecl) {
    out.open_bare(if class.is_interface {
        "interface"
    } else {
        "class"
    });
    write_modifiers(out, &class.modifiers);
    out.name(&class.name);
    if let Some(superclass) = &class.superclass {
        out.open_bare("superclass");
        out.name(superclass);
        out.close();
    }
    out.names("interfaces", &class.interfaces);
    for member in &class.members {
        write_member(out, member);
    }
    out.close();
}

fn write_imports(out: &mut Printer, imports: &[Import]) {
    for import in imports {
        out.open_named("import", &import.name, import.pos);
        if import.star {
            out.bare("*");
        }
        out.close();
    }
}

pub fn write_unit(out: &mut Printer, unit: &Unit) {
    out.open_bare("unit");
    if unit.package.bytes().is_empty() {
        out.bare("_");
    } else {
        out.bare(shown(&unit.package));
    }
    write_imports(out, &unit.imports);
    for class in &unit.types {
        write_class(out, class);
    }
    out.close();
}
