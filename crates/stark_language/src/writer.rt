//! The nodes of an AIR, as its names, numbers and operations are written one after the other.
ghost use Rattle.std.specs.Prelude.{◌≡◌, ◌<◌, IfSome, length, map};
ghost use Rattle.stark_language.specs.Expressions.{name_view, step_view};
ghost use Rattle.stark_language.specs.Nodes.{Writes, binary, declared, entry_view, expression_node, multiplied, name_node, negated, next_node, node_of_number, number_node, operation_node, place_of, pop_operand, powered, push_node, push_operand, stepped, value_node, written};

use crate::cursor::fault;
use crate::fault::{FaultKind, LanguageError};
use crate::tree::{Name, Step};

/// How many names a text may declare, and how many numbers its expressions may have.
const MOST: usize = 1024;

/// The largest exponent.
const MOST_EXPONENT: u64 = 32;

/// A node of an AIR, as in its JSON.
#[derive(Clone, Copy, Debug)]
pub enum Node {
    Constant(usize),
    Main(usize),
    Next(usize),
    Preprocessed(usize),
    PreprocessedNext(usize),
    Public(usize),
    Periodic(usize),
    First,
    Last,
    Transition,
    Add(usize, usize),
    Sub(usize, usize),
    Mul(usize, usize),
    Neg(usize),
}

/// A value that has a node, or will have this one where it is read first.
#[derive(Clone, Copy)]
pub(crate) enum Value {
    At(usize),
    Leaf(Node),
}

/// What a name stands for, in the current row and in the next one if it has one there.
#[derive(Clone, Copy)]
pub(crate) struct Entry<'a> {
    name: &'a [u8],
    here: Value,
    next: Option<Value>,
}

/// A number that has a node.
#[derive(Clone, Copy)]
pub(crate) struct NumberEntry {
    value: u64,
    node: usize,
}

/// What is written so far.
#[derive(Drop)]
pub(crate) struct Writer<'a> {
    names: Vec<Entry<'a>>,
    numbers: Vec<NumberEntry>,
    nodes: Vec<Node>,
    stack: Vec<usize>,
}

/// The place of a name among others.
fn place_of(names: &[Entry<'_>], name: &[u8]) -> Option<usize>
    ensures exact { result ≡ place_of name.now (map entry_view names.now) }
    ensures within { IfSome result (λ place. place < length names.now) }
{
    for (place, entry) in names.iter().enumerate() {
        if entry.name == name {
            return Some(place);
        }
    }
    None
}

/// The node of a number, if it has one among these.
fn node_of_number(numbers: &[NumberEntry], value: u64) -> Option<usize>
    ensures { result ≡ node_of_number value numbers.now }
{
    for entry in numbers {
        if entry.value == value {
            return Some(entry.node);
        }
    }
    None
}

/// An operation on two nodes.
#[derive(Clone, Copy)]
pub(crate) enum Operation {
    Add,
    Subtract,
    Multiply,
}

impl Operation {
    /// The node of this operation on two others.
    fn node_of(self, left: usize, right: usize) -> Node
        ensures { result ≡ operation_node self left right }
    {
        match self {
            Operation::Add => Node::Add(left, right),
            Operation::Subtract => Node::Sub(left, right),
            Operation::Multiply => Node::Mul(left, right),
        }
    }
}

impl<'a> Writer<'a> {
    /// A node goes behind the others; its place.
    fn push_node(&mut self, node: Node) -> Result<usize, LanguageError>
        ensures exact { Writes (push_node node) self.old self.new result }
        ensures names { self.new.names.items ≡ self.old.names.items }
    {
        let place = self.nodes.len();
        self.nodes.push(node)?;
        Ok(place)
    }

    /// The node of a number, which is to be below the modulus.
    #[tactic(auto, unfolding(crate::specs::Nodes::number_node))]
    fn number_node(&mut self, modulus: u64, value: u64, at: usize) -> Result<usize, LanguageError>
        ensures { Writes (number_node modulus value at) self.old self.new result }
    {
        if value >= modulus {
            return Err(fault(FaultKind::AboveModulus, at));
        }
        if let Some(node) = node_of_number(&self.numbers, value) {
            return Ok(node);
        }
        let place = self.numbers.len();
        if place >= MOST {
            return Err(fault(FaultKind::TooManyNumbers, at));
        }
        let node = self.nodes.len();
        self.numbers.push(NumberEntry { value, node })?;
        self.push_node(Node::Constant(place))
    }

    /// The node of a value.
    #[tactic(auto, unfolding(crate::specs::Nodes::value_node))]
    fn value_node(&mut self, value: Value) -> Result<usize, LanguageError>
        ensures exact { Writes (value_node value) self.old self.new result }
        ensures names { self.new.names.items ≡ self.old.names.items }
    {
        match value {
            Value::At(node) => Ok(node),
            Value::Leaf(leaf) => self.push_node(leaf),
        }
    }

    /// The node of a name in the current row.
    fn name_node(&mut self, name: Name<'a>) -> Result<usize, LanguageError>
        ensures { Writes (name_node (name_view name.entry)) self.old self.new result }
    {
        let Some(place) = place_of(&self.names, name.text) else {
            return Err(fault(FaultKind::UnknownName, name.at));
        };
        let entry = self.names[place];
        let node = self.value_node(entry.here)?;
        self.names[place].here = Value::At(node);
        Ok(node)
    }

    /// The node of a name in the next row.
    fn next_node(&mut self, name: Name<'a>) -> Result<usize, LanguageError>
        ensures { Writes (next_node (name_view name.entry)) self.old self.new result }
    {
        let Some(place) = place_of(&self.names, name.text) else {
            return Err(fault(FaultKind::UnknownName, name.at));
        };
        let Some(value) = self.names[place].next else {
            return Err(fault(FaultKind::NoNextRow, name.at));
        };
        let node = self.value_node(value)?;
        self.names[place].next = Some(Value::At(node));
        Ok(node)
    }

    /// The operand that was pushed last.
    fn pop_operand(&mut self) -> Result<usize, LanguageError>
        ensures { Writes pop_operand self.old self.new result }
    {
        match self.stack.pop() {
            Some(node) => Ok(node),
            None => Err(fault(FaultKind::OperandExpected, 0)),
        }
    }

    /// An operand goes behind the others.
    fn push_operand(&mut self, node: usize) -> Result<(), LanguageError>
        ensures { Writes (push_operand node) self.old self.new result }
    {
        self.stack.push(node)?;
        Ok(())
    }

    /// The operation on the last two operands.
    #[tactic(auto, unfolding(crate::specs::Nodes::binary))]
    fn binary(&mut self, operation: Operation) -> Result<(), LanguageError>
        ensures { Writes (binary operation) self.old self.new result }
    {
        let right = self.pop_operand()?;
        let left = self.pop_operand()?;
        let node = self.push_node(operation.node_of(left, right))?;
        self.push_operand(node)
    }

    /// The opposite of the last operand.
    #[tactic(auto, unfolding(crate::specs::Nodes::negated))]
    fn negated(&mut self) -> Result<(), LanguageError>
        ensures { Writes negated self.old self.new result }
    {
        let operand = self.pop_operand()?;
        let node = self.push_node(Node::Neg(operand))?;
        self.push_operand(node)
    }

    /// The product of a node with another, as often as this number says.
    fn multiplied(
        &mut self,
        start: usize,
        factor: usize,
        count: u64,
    ) -> Result<usize, LanguageError>
        ensures { Writes (multiplied factor count start) self.old self.new result }
    {
        let mut product = start;
        for _step in 0..count {
            product = self.push_node(Node::Mul(product, factor))?;
        }
        Ok(product)
    }

    /// The power of the last operand.
    #[tactic(auto, unfolding(crate::specs::Nodes::powered))]
    fn powered(&mut self, exponent: u64, at: usize) -> Result<(), LanguageError>
        ensures { Writes (powered exponent at) self.old self.new result }
    {
        if exponent < 1 || exponent > MOST_EXPONENT {
            return Err(fault(FaultKind::ExponentOutOfRange, at));
        }
        let operand = self.pop_operand()?;
        let node = self.multiplied(operand, operand, exponent - 1)?;
        self.push_operand(node)
    }

    /// A step of an expression.
    #[tactic(auto, unfolding(crate::specs::Nodes::stepped))]
    fn stepped(&mut self, modulus: u64, step: Step<'a>) -> Result<(), LanguageError>
        ensures { Writes (stepped modulus (step_view step.entry)) self.old self.new result }
    {
        match step {
            Step::Number { value, at } => {
                let node = self.number_node(modulus, value, at)?;
                self.push_operand(node)
            }
            Step::Name(name) => {
                let node = self.name_node(name)?;
                self.push_operand(node)
            }
            Step::Next(name) => {
                let node = self.next_node(name)?;
                self.push_operand(node)
            }
            Step::Power { exponent, at } => self.powered(exponent, at),
            Step::Negate => self.negated(),
            Step::Multiply => self.binary(Operation::Multiply),
            Step::Add => self.binary(Operation::Add),
            Step::Subtract => self.binary(Operation::Subtract),
        }
    }

    /// The steps of an expression, one after the other.
    fn write(&mut self, modulus: u64, steps: &[Step<'a>]) -> Result<(), LanguageError>
        ensures { Writes (written modulus (map step_view steps.now)) self.old self.new result }
    {
        for step in steps {
            self.stepped(modulus, *step)?;
        }
        Ok(())
    }

    /// The node of an expression.
    #[tactic(auto, unfolding(crate::specs::Nodes::expression_node))]
    pub(crate) fn expression_node(
        &mut self,
        modulus: u64,
        steps: &[Step<'a>],
    ) -> Result<usize, LanguageError>
        ensures { Writes (expression_node modulus (map step_view steps.now))
            self.old self.new result }
    {
        self.write(modulus, steps)?;
        self.pop_operand()
    }

    /// A name is declared, which stands for this.
    #[tactic(auto, unfolding(crate::specs::Nodes::declared))]
    pub(crate) fn declare(
        &mut self,
        name: Name<'a>,
        here: Value,
        next: Option<Value>,
    ) -> Result<(), LanguageError>
        ensures { Writes (declared (name_view name.entry) here next) self.old self.new result }
    {
        if name.text == b"when".as_slice() {
            return Err(fault(FaultKind::ReservedName, name.at));
        }
        if place_of(&self.names, name.text).is_some() {
            return Err(fault(FaultKind::RepeatedName, name.at));
        }
        if self.names.len() >= MOST {
            return Err(fault(FaultKind::TooManyNames, name.at));
        }
        self.names.push(Entry {
            name: name.text,
            here,
            next,
        })?;
        Ok(())
    }
}
