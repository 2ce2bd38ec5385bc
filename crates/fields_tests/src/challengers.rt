//! Both challengers over a field of 31 bits and over the field of 12289. The draws after SHA-256
//! were computed in Python, by its hashlib, and for 12289 by another implementation of it.
use stark_bench::ClearCommitment;
use stark_merkle::Root;
use stark_support::{
    CanObserve, CanSample, CanSampleBits, FieldChallenger, GrindingChallenger, JsonCodec,
};
use stark_test_cases::{read, shown, word_and_rest};
use std::alloc::Global;
use std::fmt::Debug;
use std::test::Fail;

// Of 2013265921: the challenger | what is done with it in turn; each step answers something.
pub const CASES: &str = r#"
# Elements and bits from digests, a commitment, and work: the witness, and the next draw.
sha256 | draw; draw => 1340248034 1177291290
sha256 | observe 2013265920; draw; bits 10; bits 31; bits 63 => observed 1094168982 412 1805035146 7022966747152662163
sha256 | above; draw => Ext4 { c0: 1340248034, c1: 1177291290, c2: 1104188589, c3: 106541312 } 1896291174
sha256 | commit [[[1,2],[3,2013265920]],[[5]]]; draw => 2 1223346094
sha256 | root "000102030405060708090a0b0c0d0e0f101112131415161718191a1b1c1d1e1f"; draw => observed 936145726
sha256 | grind 0; draw => Some(0) 1340248034
sha256 | grind 8; draw => Some(166) 1138891138
sha256 | grind 16; draw => Some(35128) 58634387
sha256 | check 16 35128; draw => true 58634387
sha256 | check 16 35127; draw => false 275326887

# A list handed out round and round, whatever is observed, and work over it.
script [4,2013265920] | draw; draw; draw => 4 2013265920 4
script [2013265920,5] | bits 16; bits 63; bits 31 => 0 5 2013265920
script [2013265920,2,3,4,5] | observe 7; above; draw; above => observed Ext4 { c0: 2013265920, c1: 2, c2: 3, c3: 4 } 5 Ext4 { c0: 2013265920, c1: 2, c2: 3, c3: 4 }
script [4,5] | root "000102030405060708090a0b0c0d0e0f101112131415161718191a1b1c1d1e1f"; draw; draw => observed 4 5
script [4] | grind 0; grind 16 => Some(0) Some(65535)
script [4] | check 31 2013265920; check 20 1048575; check 64 0 => false true false
"#;

// The challengers of the field of 12289.
pub const OVER_12289: &str = r#"
# Elements from digests, bits from digests, and an element of the extension, whose coordinates are drawn in turn.
sha256 | draw; draw => 9721 571
sha256 | observe 5; draw; bits 10; bits 63 => observed 1315 822 9148466495236240315
sha256 | above => Ext4 { c0: 9721, c1: 571, c2: 8937, c3: 1088 }

# A commitment to two matrices.
sha256 | commit [[[1,2],[3,4]],[[5]]]; draw => 2 4562

# Work: the witness that is found, and the next draw after it.
sha256 | grind 0; draw => Some(0) 9721
sha256 | grind 1; draw => Some(1) 3954
sha256 | grind 8; draw => Some(166) 497
sha256 | grind 12; draw => Some(166) 497
sha256 | grind 20; draw => None 9721

# The next draw, and that of a copy.
sha256 | observe 5; copy => observed (1315, 1315)
script [4,3] | draw; copy => 4 (3, 3)

# A script hands out its numbers round and round, whatever is observed.
script [4,0,0,0,3,0,0,0] | observe 7; above; bits 1; above; above => observed Ext4 { c0: 4, c1: 0, c2: 0, c3: 0 } 1 Ext4 { c0: 0, c1: 0, c2: 0, c3: 4 } Ext4 { c0: 0, c1: 0, c2: 0, c3: 3 }

# Work over a script, and the bits and the number of a witness that passes or doesn't. The script stays where it was.
script [4,3] | grind 0; grind 1; grind 13; grind 14; grind 64; draw => Some(0) Some(1) Some(8191) None None 4
script [4,3] | check 0 5; check 3 7; check 3 8; check 64 0; draw => true true false false 4
"#;

/// The answers to a case's steps.
pub fn answer<F, EF, C>(alloc: Global, mut challenger: C, text: &str) -> Result<String, Fail>
where
    F: JsonCodec + Debug + Drop,
    EF: Debug + Drop,
    C: FieldChallenger<F>
        + CanObserve<ClearCommitment<F>>
        + CanObserve<Root>
        + CanSample<EF>
        + GrindingChallenger<Witness = F>,
{
    let mut answers = String::new(alloc);
    for step in text.split("; ") {
        let (name, given) = step.split_once(' ').unwrap_or((step, ""));
        let answer = match name {
            "draw" => draw::<F, C>(alloc, &mut challenger),
            "above" => draw::<EF, C>(alloc, &mut challenger),
            "observe" => observe::<F, C>(alloc, &mut challenger, given),
            "root" => observe::<Root, C>(alloc, &mut challenger, given),
            "commit" => commit::<F, C>(alloc, &mut challenger, given),
            "bits" => bits(alloc, &mut challenger, given),
            "grind" => grind::<F, C>(alloc, &mut challenger, given),
            "check" => check::<F, C>(alloc, &mut challenger, given),
            "copy" => copy::<F, C>(alloc, &mut challenger),
            _ => Err(Fail::new("no such step")),
        }?;
        if !answers.is_empty() {
            answers.push_str(" ")?;
        }
        answers.push_str(&answer)?;
    }
    Ok(answers)
}

/// The next draw of any challenger.
fn draw<T: Debug + Drop, C: CanSample<T>>(
    alloc: Global,
    challenger: &mut C,
) -> Result<String, Fail> {
    let value = challenger.sample();
    shown(alloc, &value)
}

fn observe<F: JsonCodec + Drop, C: CanObserve<F>>(
    alloc: Global,
    challenger: &mut C,
    text: &str,
) -> Result<String, Fail> {
    let element: F = read(alloc, text)?;
    challenger.observe(&element);
    Ok(String::from_str(alloc, "observed")?)
}

/// Takes a commitment; the number of its matrices.
fn commit<F: JsonCodec + Drop, C: CanObserve<ClearCommitment<F>>>(
    alloc: Global,
    challenger: &mut C,
    text: &str,
) -> Result<String, Fail> {
    let commitment: ClearCommitment<F> = read(alloc, text)?;
    challenger.observe(&commitment);
    Ok(format!(in alloc; "{}", commitment.matrices().len())?)
}

fn bits<C: CanSampleBits<usize>>(
    alloc: Global,
    challenger: &mut C,
    text: &str,
) -> Result<String, Fail> {
    let number = text.parse::<usize>()?;
    if number >= 64 {
        return Err(Fail::new("too many bits"));
    }
    Ok(format!(in alloc; "{}", challenger.sample_bits(number))?)
}

/// The witness that any challenger finds.
fn grind<F: Debug + Drop, C: GrindingChallenger<Witness = F>>(
    alloc: Global,
    challenger: &mut C,
    text: &str,
) -> Result<String, Fail> {
    let value = challenger.grind(text.parse::<usize>()?);
    shown(alloc, &value)
}

/// Whether any challenger lets a witness pass.
fn check<F: JsonCodec, C: GrindingChallenger<Witness = F>>(
    alloc: Global,
    challenger: &mut C,
    text: &str,
) -> Result<String, Fail> {
    let (number, witness) = word_and_rest(text)?;
    let witness: F = read(alloc, witness)?;
    let passes = challenger.check_witness(number.parse::<usize>()?, witness);
    Ok(format!(in alloc; "{passes}")?)
}

/// The next draw of any challenger, and that of its copy.
fn copy<F: Debug + Drop, C: FieldChallenger<F>>(
    alloc: Global,
    challenger: &mut C,
) -> Result<String, Fail> {
    let mut copy = challenger.duplicate(alloc)?;
    let value = (challenger.sample(), copy.sample());
    shown(alloc, &value)
}
