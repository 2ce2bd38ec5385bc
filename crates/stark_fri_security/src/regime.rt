//! FRI's parameters, as reports on security take them.
ghost use Rattle.std.specs.Prelude.{◌≡◌};
ghost use Rattle.stark_fri_security.specs.Regime.{regime_of};

use stark_fri_proof::FriParameters;
use stark_support::FriRegime;

/// The parameters of a scheme that folds by two, for `StarkSecurityParams`: a fold's arity is 2^1.
pub fn fri_regime(parameters: &FriParameters) -> FriRegime
    ensures { result ≡ regime_of parameters.now }
{
    FriRegime {
        log_blowup: parameters.log_blowup(),
        num_queries: parameters.num_queries(),
        log_final_poly_len: parameters.log_final_poly_len(),
        max_log_arity: 1,
        commit_pow_bits: parameters.commit_proof_of_work_bits(),
        query_pow_bits: parameters.query_proof_of_work_bits(),
    }
}
