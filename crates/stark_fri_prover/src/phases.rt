//! The folds' part of the transcript, as the prover plays it.
ghost use Rattle.std.specs.Prelude.{◌≡◌, ◌-◌, ◌≤◌, IfNone, IfSome};
ghost use Rattle.stark_merkle.specs.Bytes.{element_bytes};
ghost use Rattle.stark_columns.specs.Made.{IfMade};
ghost use Rattle.stark_fri_prover.specs.Folds.{CommitsLayer, CommitsLayers, FoldsWord, IsWitness, MakesFold, MakesFolds, WordsOf};
ghost use Rattle.stark_fri_prover.specs.Words.{IsWordIn};
ghost use Rattle.stark_fri_prover.specs.Work.{NoFold, NoFolds, NonePasses};

use crate::layers::{Layer, layer_of, values_of};
use stark_bench::Coset;
use stark_folding::{fold_codeword_in, fold_coefficients};
use stark_fri::{FriCalls, FriChallenger, FriSponge};
use stark_fri_proof::Phase;
use stark_merkle::{Root, TreeHash};
use stark_support::{
    CanObserve, CanSample, ExtensionField, GrindingChallenger, PrimeField64, TwoAdicField,
};
use std::alloc::{AllocError, Global};

/// What a fold leaves: its layer and its phase, and the polynomial that is folded to, with its word
/// on the coset of the squares.
#[derive(Drop)]
struct Halved<F, EF> {
    layer: Layer<EF>,
    phase: Phase<F>,
    polynomial: Vec<EF>,
    word: Vec<EF>,
}

/// What the folds leave: a layer and a phase for each of them, and the polynomial that is left.
#[derive(Drop)]
pub(crate) struct Folds<F, EF> {
    pub(crate) layers: Vec<Layer<EF>>,
    pub(crate) phases: Vec<Phase<F>>,
    pub(crate) last: Vec<EF>,
}

/// A witness of work of `bits` bits; zero where none is asked for. None if no element passes.
pub(crate) fn find_witness<C, F>(challenger: &mut C, bits: usize) -> Option<F>
where
    F: PrimeField64,
    C: GrindingChallenger<Witness = F>,
    ensures found { IfSome result (IsWitness F.ring.zero C.passes C.after_check bits challenger.old
        challenger.new) }
    ensures none { IfNone result (NonePasses C.passes bits challenger.old) }
{
    if bits == 0 {
        return Some(F::ZERO);
    }
    challenger.grind(bits)
}

/// The coset of the squares of a coset's points.
fn squares<F: TwoAdicField>(coset: &Coset<F>) -> Coset<F>
    ensures size { result.log_size ≡ coset.now.log_size - 1 }
    ensures shift { result.shift ≡ F.ring.mul coset.now.shift coset.now.shift }
{
    Coset::new(coset.shift * coset.shift, coset.log_size.saturating_sub(1))
}

/// A fold: the layer of a polynomial's word is committed to, and the polynomial and the word are
/// folded by the challenge that is drawn after the work on its root. None where no witness passes.
fn fold<C, F, EF, H>(
    alloc: Global,
    bits: usize,
    polynomial: &[EF],
    word: Vec<EF>,
    domain: &Coset<F>,
    challenger: &mut C,
) -> Result<Option<Halved<F, EF>>, AllocError>
where
    F: TwoAdicField + PrimeField64,
    EF: ExtensionField<F>,
    H: TreeHash,
    C: FriChallenger<F, EF>,
    requires some { 1 ≤ domain.now.log_size }
    requires word { IsWordIn EF.ring EF.embed F.root domain.now.shift domain.now.log_size
        polynomial.now word.items }
    ensures folded { IfMade result (MakesFold ⟦<C as FriSponge<F, EF>>⟧.sponge_calls EF.ring bits
        challenger.old challenger.new polynomial.now) }
    ensures layer { IfMade result (CommitsLayer (element_bytes F.BYTES F.number_of)
        EF.coordinates EF.ring.zero H.digests domain.now.log_size) }
    ensures words { IfMade result (FoldsWord EF.ring EF.embed F.root domain.now.shift
        domain.now.log_size polynomial.now) }
    ensures none { NoFold ⟦<C as FriCalls<F, EF, H>>⟧.fri_ops F.BYTES F.number_of
        bits domain.now.shift domain.now.log_size challenger.old polynomial.now result }
{
    let (root, layer) = layer_of::<F, EF, H>(alloc, word, domain.log_size)?;
    <C as CanObserve<Root>>::observe(&mut *challenger, &root);
    // The work is on the root: another root asks for it anew.
    let Some(witness) = find_witness::<C, F>(&mut *challenger, bits) else {
        return Ok(None);
    };
    let beta = <C as CanSample<EF>>::sample(challenger);
    let folded = fold_coefficients(alloc, beta, polynomial)?;
    let word = fold_codeword_in(alloc, domain.shift, domain.log_size, beta, layer.values())?;
    Ok(Some(Halved {
        layer,
        phase: Phase { root, witness },
        polynomial: folded,
        word,
    }))
}

/// Folds a polynomial `count` times, from its word on a coset on. None where no witness passes on
/// the root of one of the folds.
pub(crate) fn fold_all<C, F, EF, H>(
    alloc: Global,
    bits: usize,
    count: usize,
    polynomial: Vec<EF>,
    domain: Coset<F>,
    challenger: &mut C,
) -> Result<Option<Folds<F, EF>>, AllocError>
where
    F: TwoAdicField + PrimeField64,
    EF: ExtensionField<F>,
    H: TreeHash,
    C: FriChallenger<F, EF>,
    requires { count ≤ domain.log_size }
    ensures folded { IfMade result (MakesFolds ⟦<C as FriSponge<F, EF>>⟧.sponge_calls EF.ring bits
        count challenger.old challenger.new polynomial.items) }
    ensures layers { IfMade result (CommitsLayers (element_bytes F.BYTES F.number_of)
        EF.coordinates EF.ring.zero H.digests domain.log_size) }
    ensures word { WordsOf ⟦<C as FriSponge<F, EF>>⟧.sponge_calls EF.ring EF.embed F.root bits
        domain.shift domain.log_size challenger.old polynomial.items result }
    ensures none { NoFolds ⟦<C as FriCalls<F, EF, H>>⟧.fri_ops F.BYTES F.number_of
        bits domain.shift domain.log_size count challenger.old polynomial.items result }
{
    // The one transform: each next word is folded of the one before.
    let mut word = values_of(alloc, &polynomial, &domain)?;
    let mut layers = Vec::new(alloc);
    let mut phases = Vec::new(alloc);
    let mut last = polynomial;
    let mut coset = domain;
    for _fold in 0..count {
        let folded = fold::<C, F, EF, H>(alloc, bits, &last, word, &coset, &mut *challenger)?;
        let Some(halved) = folded else {
            return Ok(None);
        };
        layers.push(halved.layer)?;
        phases.push(halved.phase)?;
        last = halved.polynomial;
        word = halved.word;
        coset = squares(&coset);
    }
    Ok(Some(Folds {
        layers,
        phases,
        last,
    }))
}
