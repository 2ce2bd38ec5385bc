//! An AIR's constraints as symbolic expressions.
ghost use Rattle.std.specs.Prelude.{◌≡◌, IfOk, map};
ghost use Rattle.stark_air.specs.Layout.{Covers};
ghost use Rattle.stark_air.specs.SymbolicLayout.{symbolic_layout};
ghost use Rattle.stark_symbolic.specs.SymbolicTrees.{marked_tree, base_trees, extension_trees, base_part, extension_part};

use crate::builder::{SymbolicAirBuilder, SymbolicConstraint};
use crate::expression::SymbolicExpression;
use stark_air::{Air, AirLayout};
use stark_support::Field;
use std::alloc::{AllocError, Global};

/// The AIR's constraints in the order in which it asserts them, each as its tree with constants
/// folded. Err only where memory was refused.
pub fn symbolic_constraints<F: Field, EF, A: Air<F>>(
    alloc: Global,
    air: &A,
    layout: AirLayout,
) -> Result<Vec<SymbolicConstraint<F>>, AllocError>
    requires { Covers (symbolic_layout layout) (A.layout air.now) }
    ensures { IfOk result (λ all. all.items ≡ map (marked_tree F.ring) (A.constraints air.now)) }
{
    let mut builder: SymbolicAirBuilder<F, EF> = SymbolicAirBuilder::new(alloc, layout)?;
    air.eval(&mut builder)?;
    let SymbolicAirBuilder { constraints, .. } = builder;
    Ok(constraints)
}

/// The base constraints' expressions and the extension ones', each in order.
fn parts_of<F: Field>(
    alloc: Global,
    constraints: Vec<SymbolicConstraint<F>>,
) -> Result<(Vec<SymbolicExpression<F>>, Vec<SymbolicExpression<F>>), AllocError>
    ensures base { IfOk result (λ parts. parts.0.items ≡ base_part constraints.items) }
    ensures extension { IfOk result (λ parts. parts.1.items ≡ extension_part constraints.items) }
{
    let mut base = Vec::new(alloc);
    let mut extension = Vec::new(alloc);
    for constraint in constraints {
        match constraint {
            SymbolicConstraint::Base(x) => base.push(x)?,
            SymbolicConstraint::Extension(x) => extension.push(x)?,
        }
    }
    Ok((base, extension))
}

/// The AIR's base constraints and its extension constraints, each in the order in which it asserts
/// them, as their trees with constants folded. Err only where memory was refused.
pub fn get_all_symbolic_constraints<F: Field, EF, A: Air<F>>(
    alloc: Global,
    air: &A,
    layout: AirLayout,
) -> Result<(Vec<SymbolicExpression<F>>, Vec<SymbolicExpression<F>>), AllocError>
    requires { Covers (symbolic_layout layout) (A.layout air.now) }
    ensures base { IfOk result (λ parts. parts.0.items
        ≡ base_trees F.ring (A.constraints air.now)) }
    ensures extension { IfOk result (λ parts. parts.1.items
        ≡ extension_trees F.ring (A.constraints air.now)) }
{
    let constraints = symbolic_constraints::<F, EF, A>(alloc, air, layout)?;
    parts_of(alloc, constraints)
}

/// The first part of what `get_all_symbolic_constraints` answers.
pub fn get_symbolic_constraints<F: Field, A: Air<F>>(
    alloc: Global,
    air: &A,
    layout: AirLayout,
) -> Result<Vec<SymbolicExpression<F>>, AllocError>
    requires { Covers (symbolic_layout layout) (A.layout air.now) }
    ensures { IfOk result (λ base. base.items ≡ base_trees F.ring (A.constraints air.now)) }
{
    let (base, _) = get_all_symbolic_constraints::<F, F, A>(alloc, air, layout)?;
    Ok(base)
}
