//! The steps of an interactive protocol, and the bytes that tell one instance of it from another.
ghost use Rattle.std.specs.Prelude.{◌≡◌, ◌++◌, IfOk, List, [], ◌∷◌, map};
ghost use Rattle.stark_support.specs.Seed.{hierarchy_byte, kind_byte, length_tag, length_number, number, step_of, step_view, step_bytes, steps_bytes, items_bytes, seed_of};

use std::alloc::{AllocError, Global};
use std::marker::Model;

/// Whether a step stands by itself, or begins or ends a part of the protocol.
#[derive(Clone, Copy, Debug, PartialEq, Eq)]
pub enum Hierarchy {
    Atomic,
    Begin,
    End,
}

/// What a step is for.
#[derive(Clone, Copy, Debug, PartialEq, Eq)]
pub enum Kind {
    /// The prover sends something.
    Message,
    /// Both sides know it.
    Public,
    /// The verifier draws it.
    Challenge,
    /// The prover shows work.
    Pow,
    /// A part of the protocol.
    Protocol,
}

/// How many values a step carries.
#[derive(Clone, Copy, Debug, PartialEq, Eq)]
pub enum Length {
    /// One.
    Scalar,
    /// So many.
    Fixed(usize),
    /// It carries none.
    Nothing,
}

/// One step of a protocol.
#[derive(Clone, Copy, Debug)]
pub struct Interaction {
    pub hierarchy: Hierarchy,
    pub kind: Kind,
    pub label: &'static str,
    pub length: Length,
    /// The degree over the base field of each value: 0 where the values aren't elements.
    pub degree: usize,
}

impl Interaction {
    /// A step whose values aren't elements.
    pub fn opaque(
        hierarchy: Hierarchy,
        kind: Kind,
        label: &'static str,
        length: Length,
    ) -> Interaction
        ensures { step_view result ≡ step_of hierarchy kind label.now length 0 }
    {
        Interaction::algebra(hierarchy, kind, label, length, 0)
    }

    /// A step whose values are elements of this degree over the base field.
    pub fn algebra(
        hierarchy: Hierarchy,
        kind: Kind,
        label: &'static str,
        length: Length,
        degree: usize,
    ) -> Interaction
        ensures { step_view result ≡ step_of hierarchy kind label.now length degree }
    {
        Interaction {
            hierarchy,
            kind,
            label,
            length,
            degree,
        }
    }

    /// A step that carries no value.
    pub fn marker(hierarchy: Hierarchy, kind: Kind, label: &'static str) -> Interaction
        ensures { step_view result ≡ step_of hierarchy kind label.now Length.Nothing 0 }
    {
        Interaction::opaque(hierarchy, kind, label, Length::Nothing)
    }
}

/// The steps of a protocol, in order.
#[derive(Debug, Drop)]
pub struct InteractionPattern {
    steps: Vec<Interaction>,
}

impl Model for InteractionPattern {
    ghost use Rattle.std.specs.Prelude.{List, map};
    ghost use Rattle.stark_support.specs.Seed.{Step, step_view};

    ghost Value = { List Step };

    ghost view = { λ p. map step_view p.steps.items };
}

impl InteractionPattern {
    /// The pattern of these steps.
    pub fn new(steps: Vec<Interaction>) -> InteractionPattern
        ensures { result ≡ map step_view steps.items }
    {
        InteractionPattern { steps }
    }

    /// The steps, in order.
    pub fn steps(&self) -> &[Interaction]
        ensures { map step_view result.now ≡ self.now }
    {
        &self.steps
    }
}

impl Hierarchy {
    fn byte(self) -> u8
        ensures { result ≡ hierarchy_byte self }
    {
        match self {
            Hierarchy::Atomic => 0,
            Hierarchy::Begin => 1,
            Hierarchy::End => 2,
        }
    }
}

impl Kind {
    fn byte(self) -> u8
        ensures { result ≡ kind_byte self }
    {
        match self {
            Kind::Message => 0,
            Kind::Public => 1,
            Kind::Challenge => 2,
            Kind::Pow => 3,
            Kind::Protocol => 4,
        }
    }
}

impl Length {
    fn tag(self) -> u8
        ensures { result ≡ length_tag self }
    {
        match self {
            Length::Scalar => 0,
            Length::Fixed(_) => 1,
            Length::Nothing => 2,
        }
    }

    fn number(self) -> usize
        ensures { result ≡ length_number self }
    {
        match self {
            Length::Scalar => 1,
            Length::Fixed(count) => count,
            Length::Nothing => 0,
        }
    }
}

#[tactic(auto, unfolding(crate::specs::Seed::number))]
fn push_number(bytes: &mut Vec<u8>, n: usize) -> Result<(), AllocError>
    ensures { IfOk result (λ _. bytes.new.items ≡ bytes.old.items ++ number n) }
{
    bytes.extend_from_slice(&n.to_be_bytes())
}

#[tactic(auto, using(crate::specs::SeedFacts::step_joined))]
fn push_step(bytes: &mut Vec<u8>, step: &Interaction) -> Result<(), AllocError>
    ensures { IfOk result (λ _. bytes.new.items
        ≡ bytes.old.items ++ step_bytes (step_view step.now)) }
{
    let label = step.label.as_bytes();
    bytes.push(step.hierarchy.byte())?;
    bytes.push(step.kind.byte())?;
    push_number(&mut *bytes, label.len())?;
    bytes.extend_from_slice(label)?;
    bytes.push(step.length.tag())?;
    push_number(&mut *bytes, step.length.number())?;
    push_number(bytes, step.degree)?;
    Ok(())
}

fn push_steps(bytes: &mut Vec<u8>, steps: &[Interaction]) -> Result<(), AllocError>
    ensures { IfOk result (λ _. bytes.new.items
        ≡ bytes.old.items ++ steps_bytes (map step_view steps.now)) }
{
    for step in steps {
        push_step(&mut *bytes, step)?;
    }
    Ok(())
}

fn push_items(bytes: &mut Vec<u8>, items: &[usize]) -> Result<(), AllocError>
    ensures { IfOk result (λ _. bytes.new.items ≡ bytes.old.items ++ items_bytes items.now) }
{
    for item in items {
        push_number(&mut *bytes, 8)?;
        push_number(&mut *bytes, *item)?;
    }
    Ok(())
}

/// What tells one instance of a protocol from another: bytes that are observed before anything
/// else.
#[derive(Debug, Drop)]
pub struct DomainSeparator {
    seed: Vec<u8>,
}

impl Model for DomainSeparator {
    ghost use Rattle.std.specs.Prelude.{List, ℕ};

    ghost Value = { List ℕ };

    ghost view = { λ s. s.seed.items };
}

impl DomainSeparator {
    /// Of the protocol's name, its steps and the numbers of the instance. It is Err only where
    /// memory was refused.
    pub fn new(
        alloc: Global,
        protocol: &str,
        pattern: &InteractionPattern,
        instance: &[usize],
    ) -> Result<DomainSeparator, AllocError>
        ensures { IfOk result (λ separator. separator
            ≡ seed_of protocol.now pattern.now instance.now) }
    {
        let name = protocol.as_bytes();
        let mut seed = Vec::new(alloc);
        seed.push(1)?;
        push_number(&mut seed, name.len())?;
        seed.extend_from_slice(name)?;
        push_number(&mut seed, pattern.steps.len())?;
        push_steps(&mut seed, &pattern.steps)?;
        push_number(&mut seed, instance.len())?;
        push_items(&mut seed, instance)?;
        Ok(DomainSeparator { seed })
    }

    /// The bytes.
    pub fn seed(&self) -> &[u8]
        ensures { result.now ≡ self.now }
    {
        &self.seed
    }
}
