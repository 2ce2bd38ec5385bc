//! What a proof of an opening carries.
ghost use Rattle.std.specs.Prelude.{◌≡◌, map};
ghost use Rattle.stark_merkle.specs.Tree.{items_of};

use crate::path::MerklePath;
use stark_merkle::Root;
use std::marker::Model;

/// A fold: the root of the tree over the pairs of the word that is folded, and the witness of the
/// work before its challenge is drawn.
#[derive(Debug, Drop)]
pub struct Phase<F> {
    pub root: Root,
    pub witness: F,
}

/// What a query opens of a fold: the value that is paired with the one that the query has, and the
/// pair's path to the fold's root.
#[derive(Debug, Drop)]
pub struct LayerOpening<E> {
    pub sibling: E,
    pub path: MerklePath,
}

/// What a query opens of a round: a row of each of its matrices, in their order, and the path that
/// these have together to the round's root.
#[derive(Debug, Drop)]
pub struct InputOpening<F> {
    rows: Vec<Vec<F>>,
    path: MerklePath,
}

impl<F> Model for InputOpening<F> {
    ghost use Rattle.std.specs.Prelude.{map};
    ghost use Rattle.stark_merkle.specs.Tree.{items_of};
    ghost use Rattle.stark_fri_proof.specs.Parts.{InputOpening};

    ghost Value = { InputOpening F };

    ghost view = { λ i. record { rows = map items_of i.rows.items; path = i.path } };
}

impl<F> InputOpening<F> {
    /// The rows, one a matrix, and their path.
    pub fn new(rows: Vec<Vec<F>>, path: MerklePath) -> InputOpening<F>
        ensures { result ≡ record { rows = map items_of rows.items; path = path } }
    {
        InputOpening { rows, path }
    }

    /// A row of each matrix of the round, in their order.
    pub fn rows(&self) -> &[Vec<F>]
        ensures { map items_of result.now ≡ self.now.rows }
    {
        &self.rows
    }

    /// The path of the rows to the round's root.
    pub fn path(&self) -> &MerklePath
        ensures { result.now ≡ self.now.path }
    {
        &self.path
    }
}

/// What is opened at a place that was drawn.
#[derive(Debug, Drop)]
pub struct QueryProof<F, E> {
    inputs: Vec<InputOpening<F>>,
    layers: Vec<LayerOpening<E>>,
}

impl<F, E> Model for QueryProof<F, E> {
    ghost use Rattle.stark_fri_proof.specs.Parts.{QueryProof};

    ghost Value = { QueryProof F E };

    ghost view = { λ q. record { inputs = q.inputs.items; layers = q.layers.items } };
}

impl<F, E> QueryProof<F, E> {
    /// What is opened of the rounds, and of the folds, each in their order.
    pub fn new(inputs: Vec<InputOpening<F>>, layers: Vec<LayerOpening<E>>) -> QueryProof<F, E>
        ensures { result ≡ record { inputs = inputs.items; layers = layers.items } }
    {
        QueryProof { inputs, layers }
    }

    /// What is opened of the rounds, in their order.
    pub fn inputs(&self) -> &[InputOpening<F>]
        ensures { result.now ≡ self.now.inputs }
    {
        &self.inputs
    }

    /// What is opened of the folds, in their order.
    pub fn layers(&self) -> &[LayerOpening<E>]
        ensures { result.now ≡ self.now.layers }
    {
        &self.layers
    }
}

/// The argument for opened values: the folds, the polynomial that is left, the witness of the work
/// before the places are drawn, and what is opened at each of them.
#[derive(Debug, Drop)]
pub struct FriProof<F, E> {
    phases: Vec<Phase<F>>,
    final_polynomial: Vec<E>,
    query_witness: F,
    queries: Vec<QueryProof<F, E>>,
}

impl<F, E> Model for FriProof<F, E> {
    ghost use Rattle.stark_fri_proof.specs.Parts.{FriProofView};

    ghost Value = { FriProofView F E };

    ghost view = { λ p. record {
      phases = p.phases.items;
      final_polynomial = p.final_polynomial.items;
      query_witness = p.query_witness;
      queries = p.queries.items;
    } };
}

impl<F, E> FriProof<F, E> {
    /// The folds in order, the coefficients of the polynomial that is left, the constant first, the
    /// witness of the work before the places are drawn, and the queries in the order in which their
    /// places are drawn.
    pub fn new(
        phases: Vec<Phase<F>>,
        final_polynomial: Vec<E>,
        query_witness: F,
        queries: Vec<QueryProof<F, E>>,
    ) -> FriProof<F, E>
        ensures { result ≡ record {
          phases = phases.items;
          final_polynomial = final_polynomial.items;
          query_witness = query_witness;
          queries = queries.items;
        } }
    {
        FriProof {
            phases,
            final_polynomial,
            query_witness,
            queries,
        }
    }

    /// The folds, in order.
    pub fn phases(&self) -> &[Phase<F>]
        ensures { result.now ≡ self.now.phases }
    {
        &self.phases
    }

    /// The coefficients of the polynomial that the folds leave, the constant first.
    pub fn final_polynomial(&self) -> &[E]
        ensures { result.now ≡ self.now.final_polynomial }
    {
        &self.final_polynomial
    }

    /// The witness of the work before the places are drawn.
    pub fn query_witness(&self) -> &F
        ensures { result.now ≡ self.now.query_witness }
    {
        &self.query_witness
    }

    /// What is opened at each place, in the order in which these are drawn.
    pub fn queries(&self) -> &[QueryProof<F, E>]
        ensures { result.now ≡ self.now.queries }
    {
        &self.queries
    }
}
