//! Proofs that are made of a trace, and what the verifier answers of them. A case gives the
//! challenger | a table's name | the scheme, with its masks and the call at which it stops | the
//! bits of work before zeta, and those before alpha where there are any | an AIR | the logarithm of
//! the height | the trace, row after row | the public values.

use crate::calls::ClearConfig;
use crate::kinds::NamedAir;
use crate::named_air::{air_in, named_air};
use crate::proving::{MaskedConfig, TraceProver, masked, masked_reread};
use stark_air::Air;
use stark_bench::ClearCommitment;
use stark_clear::{ClearCall, ClearPcs, MaskedClearPcs};
use stark_parts::{StarkChallenger, StarkConfig};
use stark_support::{
    JsonCodec, NeverNull, PackedExtensionField, PackedField, PrimeField64, RowMajorMatrix,
    TwoAdicField,
};
use stark_test_cases::{apart, elements_in, numbers_in};
use std::alloc::Global;
use std::test::Fail;

pub const WORKED: &str = r#"
# The line through 5 and 6 on the points 1 and -1, and the quotient -1. At zeta 1 the proof is made and refused. Of one row the column
# is 5 everywhere. No element is a witness of 14 bits: a script's witness passes where the number after it is a multiple of 2^bits.
# On two rows the first selector is X + 1, and X over Z_H, which is 120 on the domain of the quotient, is 7271 X: a broken trace's
# proof. With an author's bound of 3 the same quotient is cut in two; with the greatest of the bounds there is no domain so large.
script 4 0 0 0 3 0 0 0 | made | clear | 0 | counter | 1 | 5 6 | 5 => {"commitments":{"quotient_chunks":[[[12288,0],[0,0],[0,0],[0,0]]],"random":null,"trace":[[[6150,6144]]]},"degree_bits":1,"ood_pow_witness":0,"opened_values":{"preprocessed_local":null,"preprocessed_next":null,"quotient_chunks":[[[12288,0,0,0],[0,0,0,0],[0,0,0,0],[0,0,0,0]]],"random":null,"trace_local":[[4,0,0,0]],"trace_next":[[7,0,0,0]]},"opening_proof":null} Ok(())
script 4 0 0 0 1 0 0 0 | made | clear | 0 | counter | 1 | 5 6 | 5 => {"commitments":{"quotient_chunks":[[[12288,0],[0,0],[0,0],[0,0]]],"random":null,"trace":[[[6150,6144]]]},"degree_bits":1,"ood_pow_witness":0,"opened_values":{"preprocessed_local":null,"preprocessed_next":null,"quotient_chunks":[[[12288,0,0,0],[0,0,0,0],[0,0,0,0],[0,0,0,0]]],"random":null,"trace_local":[[5,0,0,0]],"trace_next":[[6,0,0,0]]},"opening_proof":null} Err(OodPointInDomain)
script 4 0 0 0 3 0 0 0 | made | clear | 0 | counter | 0 | 5 | 5 => {"commitments":{"quotient_chunks":[[[12288],[0],[0],[0]]],"random":null,"trace":[[[5]]]},"degree_bits":0,"ood_pow_witness":0,"opened_values":{"preprocessed_local":null,"preprocessed_next":null,"quotient_chunks":[[[12288,0,0,0],[0,0,0,0],[0,0,0,0],[0,0,0,0]]],"random":null,"trace_local":[[5,0,0,0]],"trace_next":[[5,0,0,0]]},"opening_proof":null} Ok(())
script 4 0 0 0 3 0 0 0 | made | clear | 1 | counter | 1 | 5 6 | 5 => {"commitments":{"quotient_chunks":[[[12288,0],[0,0],[0,0],[0,0]]],"random":null,"trace":[[[6150,6144]]]},"degree_bits":1,"ood_pow_witness":1,"opened_values":{"preprocessed_local":null,"preprocessed_next":null,"quotient_chunks":[[[12288,0,0,0],[0,0,0,0],[0,0,0,0],[0,0,0,0]]],"random":null,"trace_local":[[4,0,0,0]],"trace_next":[[7,0,0,0]]},"opening_proof":null} Ok(())
script 4 0 0 0 3 0 0 0 | made | clear | 13 | counter | 1 | 5 6 | 5 => {"commitments":{"quotient_chunks":[[[12288,0],[0,0],[0,0],[0,0]]],"random":null,"trace":[[[6150,6144]]]},"degree_bits":1,"ood_pow_witness":8191,"opened_values":{"preprocessed_local":null,"preprocessed_next":null,"quotient_chunks":[[[12288,0,0,0],[0,0,0,0],[0,0,0,0],[0,0,0,0]]],"random":null,"trace_local":[[4,0,0,0]],"trace_next":[[7,0,0,0]]},"opening_proof":null} Ok(())
script 4 0 0 0 3 0 0 0 | made | clear | 14 | counter | 1 | 5 6 | 5 => GrindExhausted { bits: 14 }
# With work before alpha, of which the second number of bits is.
script 4 0 0 0 3 0 0 0 | made | clear | 0 3 | counter | 1 | 5 6 | 5 => {"alpha_pow_witness":7,"commitments":{"quotient_chunks":[[[12288,0],[0,0],[0,0],[0,0]]],"random":null,"trace":[[[6150,6144]]]},"degree_bits":1,"ood_pow_witness":0,"opened_values":{"preprocessed_local":null,"preprocessed_next":null,"quotient_chunks":[[[12288,0,0,0],[0,0,0,0],[0,0,0,0],[0,0,0,0]]],"random":null,"trace_local":[[4,0,0,0]],"trace_next":[[7,0,0,0]]},"opening_proof":null} Ok(())
script 4 0 0 0 3 0 0 0 | made | clear | 13 1 | counter | 1 | 5 6 | 5 => {"alpha_pow_witness":1,"commitments":{"quotient_chunks":[[[12288,0],[0,0],[0,0],[0,0]]],"random":null,"trace":[[[6150,6144]]]},"degree_bits":1,"ood_pow_witness":8191,"opened_values":{"preprocessed_local":null,"preprocessed_next":null,"quotient_chunks":[[[12288,0,0,0],[0,0,0,0],[0,0,0,0],[0,0,0,0]]],"random":null,"trace_local":[[4,0,0,0]],"trace_next":[[7,0,0,0]]},"opening_proof":null} Ok(())
script 4 0 0 0 3 0 0 0 | made | clear | 1 14 | counter | 1 | 5 6 | 5 => GrindExhausted { bits: 14 }
script 4 0 0 0 3 0 0 0 | made | clear | 14 1 | counter | 1 | 5 6 | 5 => GrindExhausted { bits: 14 }
script 4 0 0 0 3 0 0 0 | made | clear | 14 15 | counter | 1 | 5 6 | 5 => GrindExhausted { bits: 15 }
script 4 0 0 0 3 0 0 0 | made | clear | 0 | first row | 1 | 0 0 | empty => {"commitments":{"quotient_chunks":[[[0,7271],[0,0],[0,0],[0,0]]],"random":null,"trace":[[[0,0]]]},"degree_bits":1,"ood_pow_witness":0,"opened_values":{"preprocessed_local":null,"preprocessed_next":null,"quotient_chunks":[[[9524,0,0,0],[0,0,0,0],[0,0,0,0],[0,0,0,0]]],"random":null,"trace_local":[[0,0,0,0]],"trace_next":null},"opening_proof":null} Err(OodEvaluationMismatch { index: None })
script 4 0 0 0 3 0 0 0 | made | clear | 0 | first row | 0 | 0 | empty => {"commitments":{"quotient_chunks":[[[0],[0],[0],[0]]],"random":null,"trace":[[[0]]]},"degree_bits":0,"ood_pow_witness":0,"opened_values":{"preprocessed_local":null,"preprocessed_next":null,"quotient_chunks":[[[0,0,0,0],[0,0,0,0],[0,0,0,0],[0,0,0,0]]],"random":null,"trace_local":[[0,0,0,0]],"trace_next":null},"opening_proof":null} Ok(())
script 4 0 0 0 3 0 0 0 | made | clear | 0 | 3 | 1 | 5 6 | 5 => {"commitments":{"quotient_chunks":[[[12288,0],[0,0],[0,0],[0,0]],[[12288,0],[0,0],[0,0],[0,0]]],"random":null,"trace":[[[6150,6144]]]},"degree_bits":1,"ood_pow_witness":0,"opened_values":{"preprocessed_local":null,"preprocessed_next":null,"quotient_chunks":[[[12288,0,0,0],[0,0,0,0],[0,0,0,0],[0,0,0,0]],[[12288,0,0,0],[0,0,0,0],[0,0,0,0],[0,0,0,0]]],"random":null,"trace_local":[[4,0,0,0]],"trace_next":[[7,0,0,0]]},"opening_proof":null} Ok(())
script 4 0 0 0 3 0 0 0 | made | clear | 0 | 9223372036854775809 | 1 | 5 6 | 5 => QuotientDomainTooLarge { maximum: 63, got: 64 }

# With masks of ones the counter's column is the line plus (X^2 - 1) (X + 1), 36 at 3 and 12280 at -3.
script 4 0 0 0 3 0 0 0 | made | masked by 1 | 0 | counter | 1 | 5 6 | 5 => {"commitments":{"quotient_chunks":[[[244,5,1625,1625],[12288,12288,1625,1625],[12288,12288,1625,1625],[12288,12288,1625,1625]],[[1539,5,5269,5269],[12288,12288,5269,5269],[12288,12288,5269,5269],[12288,12288,5269,5269]],[[12049,5,10664,10664],[12288,12288,10664,10664],[12288,12288,10664,10664],[12288,12288,10664,10664]],[[10758,9,3518,3518],[3,3,3518,3518],[3,3,3518,3518],[3,3,3518,3518]]],"random":[[[1,1,1,1],[1,1,1,1],[1,1,1,1],[1,1,1,1]]],"trace":[[[6149,6143,1,1]]]},"degree_bits":2,"ood_pow_witness":0,"opened_values":{"preprocessed_local":null,"preprocessed_next":null,"quotient_chunks":[[[9603,0,0,0],[9340,0,0,0],[9340,0,0,0],[9340,0,0,0]],[[6903,0,0,0],[5345,0,0,0],[5345,0,0,0],[5345,0,0,0]],[[2720,0,0,0],[2941,0,0,0],[2941,0,0,0],[2941,0,0,0]],[[2254,0,0,0],[3770,0,0,0],[3770,0,0,0],[3770,0,0,0]]],"random":[[40,0,0,0],[40,0,0,0],[40,0,0,0],[40,0,0,0]],"trace_local":[[36,0,0,0]],"trace_next":[[12280,0,0,0]]},"opening_proof":null} Ok(())
script 4 0 0 0 3 0 0 0 | made | masked by 1 2 3 | 0 | fibonacci | 2 | 1 1 1 2 2 3 3 5 | 1 1 5 => accepted
script 4 0 0 0 3 0 0 0 | made | masked by 1 2 3 | 0 | cubic | 1 | 0 0 | empty => accepted
"#;

// By hashing, with work before zeta and before alpha.
pub const WITH_WORK: &str = r#"
sha256 | made | clear | 2 3 | counter | 3 | 5 6 7 8 9 10 11 12 | 5 => accepted
sha256 | made | masked by 1 2 3 | 2 3 | fibonacci | 2 | 1 1 1 2 2 3 3 5 | 1 1 5 => accepted
"#;

// Over 2013265921. The proofs were computed in Python: columns and chunks by Lagrange's
// interpolation, the quotient point by point, masks as the definitions say. Alpha and zeta lie in
// the extension where the script has other numbers than zeros. The AIR as data has base constraints
// and one over the extension, a preprocessed and a periodic column: with a trace that satisfies it,
// and with one whose last but one row is false.
pub const OVER_BABY_BEAR: &str = r#"
script 4 0 0 0 3 0 0 0 | made | clear | 0 | counter | 1 | 5 6 | 5 => {"commitments":{"quotient_chunks":[[[2013265920,0],[0,0],[0,0],[0,0]]],"random":null,"trace":[[[1006632966,1006632960]]]},"degree_bits":1,"ood_pow_witness":0,"opened_values":{"preprocessed_local":null,"preprocessed_next":null,"quotient_chunks":[[[2013265920,0,0,0],[0,0,0,0],[0,0,0,0],[0,0,0,0]]],"random":null,"trace_local":[[4,0,0,0]],"trace_next":[[7,0,0,0]]},"opening_proof":null} Ok(())
script 2013265919 5 1234567890 7 3 987654321 2 2000000000 | made | clear | 0 | fibonacci | 2 | 1 1 1 2 2 3 3 5 | 1 1 5 => {"commitments":{"quotient_chunks":[[[868511159,1320416533,1008890819,0],[1631120617,1659453093,1416126794,0],[640556120,1368021042,493635179,0],[470626906,899567869,1839940596,0]]],"random":null,"trace":[[[503316482,360885776,503316480,645747184],[503316483,792986904,1509949440,1220279016]]]},"degree_bits":2,"ood_pow_witness":0,"opened_values":{"preprocessed_local":null,"preprocessed_next":null,"quotient_chunks":[[[167594138,1959888722,1425128919,1392434837],[526341281,1668215528,860985150,1396313019],[4821857,1554681749,1156217975,695173232],[1137884663,1760603565,1290190859,1397796958]]],"random":null,"trace_local":[[552775249,956704516,678655037,206653638],[726280877,353849726,161931401,154059489]],"trace_next":[[321333016,773531464,327829147,819314094],[67080889,1038364323,124274533,14959245]]},"opening_proof":null} Ok(())
script 2013265919 5 1234567890 7 3 987654321 2 2000000000 | made | clear | 0 | {"width":2,"publics":1,"periodic":[[0,1]],"preprocessed":{"width":1,"rows":[[1],[2],[3],[4]]},"constants":[],"nodes":[["main",0],["main",1],["next",0],["preprocessed",0],["public",0],["periodic",0],["first"],["transition"],["sub",0,4],["mul",6,8],["sub",2,0],["sub",10,3],["mul",7,11],["mul",0,0],["mul",13,5],["sub",1,14]],"constraints":[{"base":9},{"ext":12},{"base":15}]} | 2 | 5 0 6 36 8 0 11 121 | 5 => {"commitments":{"quotient_chunks":[[[229234332,1309367291,827845423,147239721],[287883998,1099292649,1975751115,0],[361642096,280731363,1382258130,0],[389514758,159366770,425450116,0]],[[521593425,1309367291,827845423,147239721],[287883998,1099292649,1975751115,0],[361642096,280731363,1382258130,0],[389514758,159366770,425450116,0]]],"random":null,"trace":[[[1006632968,1153872680,2013265920,1866026200],[1509949480,1999758764,503316441,13507157]]]},"degree_bits":2,"ood_pow_witness":0,"opened_values":{"preprocessed_local":[[1128360392,1465403121,1210038798,1830322581]],"preprocessed_next":null,"quotient_chunks":[[[1196579427,1682506269,472164306,1166140980],[1665249334,1930369187,83296544,1902622750],[665342027,1412064120,484547930,1113021670],[798999617,893142201,654609518,1212908348]],[[1488938520,1682506269,472164306,1166140980],[1665249334,1930369187,83296544,1902622750],[665342027,1412064120,484547930,1113021670],[798999617,893142201,654609518,1212908348]]],"random":null,"trace_local":[[1279056129,1310554242,840586438,360713127],[105915916,618166684,1272976020,1245433162]],"trace_next":[[388413908,1811895787,452103680,834273339],[526102135,29620624,546684558,1767747050]]},"opening_proof":null} Ok(())
script 2013265919 5 1234567890 7 3 987654321 2 2000000000 | made | clear | 0 | {"width":2,"publics":1,"periodic":[[0,1]],"preprocessed":{"width":1,"rows":[[1],[2],[3],[4]]},"constants":[],"nodes":[["main",0],["main",1],["next",0],["preprocessed",0],["public",0],["periodic",0],["first"],["transition"],["sub",0,4],["mul",6,8],["sub",2,0],["sub",10,3],["mul",7,11],["mul",0,0],["mul",13,5],["sub",1,14]],"constraints":[{"base":9},{"ext":12},{"base":15}]} | 2 | 5 0 6 36 8 1 11 121 | 5 => {"commitments":{"quotient_chunks":[[[1057979426,480622197,1656590517,1331760548],[287883998,1099292649,1975751115,0],[361642096,280731363,1382258130,0],[389514758,159366770,425450116,0]],[[328277086,1502683630,634529084,340556060],[287883998,1099292649,1975751115,0],[361642096,280731363,1382258130,0],[389514758,159366770,425450116,0]]],"random":null,"trace":[[[1006632968,1153872680,2013265920,1866026200],[1006633000,489809323,2013265882,516823637]]]},"degree_bits":2,"ood_pow_witness":0,"opened_values":{"preprocessed_local":[[1128360392,1465403121,1210038798,1830322581]],"preprocessed_next":null,"quotient_chunks":[[[1675398630,1955736790,954749890,481841084],[1665249334,1930369187,83296544,1902622750],[665342027,1412064120,484547930,1113021670],[798999617,893142201,654609518,1212908348]],[[492203411,319064859,120034547,1639909333],[1665249334,1930369187,83296544,1902622750],[665342027,1412064120,484547930,1113021670],[798999617,893142201,654609518,1212908348]]],"random":null,"trace_local":[[1279056129,1310554242,840586438,360713127],[1462850194,1784712069,21314009,778081142]],"trace_next":[[388413908,1811895787,452103680,834273339],[146832515,483327239,1364571806,1508499263]]},"opening_proof":null} Err(OodEvaluationMismatch { index: None })
script 2013265919 5 1234567890 7 3 987654321 2 2000000000 | made | masked by 2013265918 2 1234567890 | 0 | counter | 1 | 5 6 | 5 => {"commitments":{"quotient_chunks":[[[2013258244,2013265917,1552372578,978350869],[1785340584,2013265919,1731729676,1552372578],[917773867,1557396062,978350869,1731729676],[1006646393,2013265912,1552372578,978350869]],[[359880695,1,1210433741,1360841066],[1530154621,778698026,1777127184,1210433741],[1499906924,778698029,1360841066,1777127184],[504995398,2013265917,1210433741,1360841066]],[[7694,778698029,1034915052,281536245],[1006623336,2013265914,460893343,1034915052],[1285278537,778698034,281536245,460893343],[1006619480,778698024,1034915052,281536245]],[[1653385241,1234567887,321870149,321870149],[1717679152,1234567884,321870149,321870149],[1159015343,2013265920,321870149,321870149],[1508270473,1234567882,321870149,321870149]]],"random":[[[2013265918,2,1234567890,2013265918],[2,1234567890,2013265918,2],[1234567890,2013265918,2,1234567890],[2013265918,2,1234567890,2013265918]]],"trace":[[[1006632969,1006632958,2013265918,2]]]},"degree_bits":2,"ood_pow_witness":0,"opened_values":{"preprocessed_local":null,"preprocessed_next":null,"quotient_chunks":[[[724499524,1187777653,1325581526,907701376],[688714557,1833053547,1080507370,1694873080],[1605002549,1747053821,360308245,788603152],[1731153579,276037890,1325581516,974030981]],[[1599745550,172860039,1389111718,1131772565],[293113480,376737778,473481501,1281928611],[1018204000,742533613,1077389453,35522786],[1744860238,1274386197,1389111708,1198102170]],[[281263522,109165899,285348095,1452221636],[282116102,27620342,687684373,1251489676],[691466818,1102865535,476888694,1714313209],[1287875293,1210692057,285348085,1518551241]],[[206021524,423566031,281060413,195133253],[270315426,1487134910,281060407,234931016],[34479804,320607592,1838456479,1577787700],[60906741,1525092189,281060403,261462858]]],"random":[[1093736426,1693927893,1535637103,689724760],[1351860778,1534497325,1955661961,498405876],[920266279,1028255164,385678390,286056826],[1093736426,1693927893,1535637103,689724760]],"trace_local":[[1674688949,6993323,1499792097,934124007]],"trace_next":[[1028716968,151909001,1777363878,2012202418]]},"opening_proof":null} Ok(())

# The broken trace again: X over Z_H is 2011168769 X.
script 4 0 0 0 3 0 0 0 | made | clear | 0 | first row | 1 | 0 0 | empty => {"commitments":{"quotient_chunks":[[[0,2011168769],[0,0],[0,0],[0,0]]],"random":null,"trace":[[[0,0]]]},"degree_bits":1,"ood_pow_witness":0,"opened_values":{"preprocessed_local":null,"preprocessed_next":null,"quotient_chunks":[[[2006974465,0,0,0],[0,0,0,0],[0,0,0,0],[0,0,0,0]]],"random":null,"trace_local":[[0,0,0,0]],"trace_next":null},"opening_proof":null} Err(OodEvaluationMismatch { index: None })

# By hashing; under `verdict` the verifier's answer stands alone. A false trace makes a proof that is
# refused: of the counter, of Fibonacci by its public value, and of the AIR as data against the
# constraint over the extension and against one over the field.
sha256 | made | clear | 0 | counter | 4 | 5 6 7 8 9 10 11 12 13 14 15 16 17 18 19 20 | 5 => accepted
sha256 | made | clear | 0 | {"width":2,"publics":1,"periodic":[[0,1]],"preprocessed":{"width":1,"rows":[[1],[2],[3],[4]]},"constants":[],"nodes":[["main",0],["main",1],["next",0],["preprocessed",0],["public",0],["periodic",0],["first"],["transition"],["sub",0,4],["mul",6,8],["sub",2,0],["sub",10,3],["mul",7,11],["mul",0,0],["mul",13,5],["sub",1,14]],"constraints":[{"base":9},{"ext":12},{"base":15}]} | 2 | 5 0 6 36 8 0 11 121 | 5 => accepted
sha256 | made | masked by 2013265918 2 1234567890 | 0 | {"width":2,"publics":1,"periodic":[[0,1]],"preprocessed":{"width":1,"rows":[[1],[2],[3],[4]]},"constants":[],"nodes":[["main",0],["main",1],["next",0],["preprocessed",0],["public",0],["periodic",0],["first"],["transition"],["sub",0,4],["mul",6,8],["sub",2,0],["sub",10,3],["mul",7,11],["mul",0,0],["mul",13,5],["sub",1,14]],"constraints":[{"base":9},{"ext":12},{"base":15}]} | 2 | 5 0 6 36 8 0 11 121 | 5 => accepted
sha256 | verdict | clear | 0 | counter | 1 | 5 7 | 5 => Err(OodEvaluationMismatch { index: None })
sha256 | verdict | clear | 0 | fibonacci | 2 | 1 1 1 2 2 3 3 5 | 1 1 6 => Err(OodEvaluationMismatch { index: None })
sha256 | verdict | clear | 0 | {"width":2,"publics":1,"periodic":[[0,1]],"preprocessed":{"width":1,"rows":[[1],[2],[3],[4]]},"constants":[],"nodes":[["main",0],["main",1],["next",0],["preprocessed",0],["public",0],["periodic",0],["first"],["transition"],["sub",0,4],["mul",6,8],["sub",2,0],["sub",10,3],["mul",7,11],["mul",0,0],["mul",13,5],["sub",1,14]],"constraints":[{"base":9},{"ext":12},{"base":15}]} | 2 | 5 0 6 36 8 0 12 144 | 5 => Err(OodEvaluationMismatch { index: None })
sha256 | verdict | clear | 0 | {"width":2,"publics":1,"periodic":[[0,1]],"preprocessed":{"width":1,"rows":[[1],[2],[3],[4]]},"constants":[],"nodes":[["main",0],["main",1],["next",0],["preprocessed",0],["public",0],["periodic",0],["first"],["transition"],["sub",0,4],["mul",6,8],["sub",2,0],["sub",10,3],["mul",7,11],["mul",0,0],["mul",13,5],["sub",1,14]],"constraints":[{"base":9},{"ext":12},{"base":15}]} | 2 | 5 0 6 36 8 1 11 121 | 5 => Err(OodEvaluationMismatch { index: None })
"#;

// Satisfying traces of one, two, four and eight rows; the periodic column has two, the preprocessed
// one four. At these heights no drawn zeta lies in H. What stands before them tells the challenger
// and the scheme.
pub const SATISFYING: &str = r#"
counter | 0 | 5 | 5 => accepted
counter | 1 | 5 6 | 5 => accepted
counter | 2 | 5 6 7 8 | 5 => accepted
counter | 3 | 5 6 7 8 9 10 11 12 | 5 => accepted
cubic | 0 | 0 | empty => accepted
cubic | 1 | 0 0 | empty => accepted
cubic | 2 | 0 0 0 0 | empty => accepted
cubic | 3 | 0 0 0 0 0 0 0 0 | empty => accepted
fibonacci | 0 | 1 1 | 1 1 1 => accepted
fibonacci | 1 | 1 1 1 2 | 1 1 2 => accepted
fibonacci | 2 | 1 1 1 2 2 3 3 5 | 1 1 5 => accepted
fibonacci | 3 | 1 1 1 2 2 3 3 5 5 8 8 13 13 21 21 34 | 1 1 34 => accepted
pair | 0 | 5 5 | 5 => accepted
pair | 1 | 5 5 6 6 | 5 => accepted
pair | 2 | 5 5 6 6 7 7 8 8 | 5 => accepted
pair | 3 | 5 5 6 6 7 7 8 8 9 9 10 10 11 11 12 12 | 5 => accepted
preprocessed | 2 | 1 2 3 4 | empty => accepted
periodic | 0 | 0 | empty => PeriodicColumn(TooLong { column: 0 })
periodic | 1 | 0 1 | empty => accepted
periodic | 2 | 0 1 0 1 | empty => accepted
periodic | 3 | 0 1 0 1 0 1 0 1 | empty => accepted
"#;

pub const REFUSED: &str = r#"
# What is put in the place of a part of the masked counter's proof.
script 4 0 0 0 3 0 0 0 | changed | "degree_bits":2 | "degree_bits":2 => Ok(())
script 4 0 0 0 3 0 0 0 | changed | "degree_bits":2 | "degree_bits":0 => Err(InvalidProofShape(DegreeBitsTooSmall { air: None, minimum: 1, got: 0 }))
script 4 0 0 0 3 0 0 0 | changed | "random":[[40,0,0,0],[40,0,0,0],[40,0,0,0],[40,0,0,0]] | "random":null => Err(RandomizationError)
script 4 0 0 0 3 0 0 0 | changed | "random":[[[1,1,1,1],[1,1,1,1],[1,1,1,1],[1,1,1,1]]] | "random":null => Err(RandomizationError)

# What prover and verifier answer where the scheme stops at one of its calls, in the order preprocessing, trace, quotient,
# randomization, opening; the work before alpha stands behind the trace, that before zeta behind the randomization. At zeta 1, a point
# of H, nothing is verified.
script 4 0 0 0 3 0 0 0 | stopped | clear stopping at CommitPreprocessing | 0 | preprocessed | 2 | 1 2 3 4 | empty => Pcs { phase: "preprocessing commitment", source: Stopped }
script 4 0 0 0 3 0 0 0 | stopped | clear stopping at Commit | 0 | counter | 1 | 5 6 | 5 => Pcs { phase: "trace commitment", source: Stopped }
script 4 0 0 0 3 0 0 0 | stopped | clear stopping at CommitQuotient | 0 | counter | 1 | 5 6 | 5 => Pcs { phase: "quotient commitment", source: Stopped }
script 4 0 0 0 3 0 0 0 | stopped | clear stopping at Commit | 0 14 | counter | 1 | 5 6 | 5 => Pcs { phase: "trace commitment", source: Stopped }
script 4 0 0 0 3 0 0 0 | stopped | clear stopping at CommitQuotient | 0 14 | counter | 1 | 5 6 | 5 => GrindExhausted { bits: 14 }
script 4 0 0 0 3 0 0 0 | stopped | clear stopping at CommitQuotient | 14 3 | counter | 1 | 5 6 | 5 => Pcs { phase: "quotient commitment", source: Stopped }
script 4 0 0 0 3 0 0 0 | stopped | clear stopping at Open | 14 3 | counter | 1 | 5 6 | 5 => GrindExhausted { bits: 14 }
script 4 0 0 0 3 0 0 0 | stopped | clear stopping at Open | 0 | counter | 1 | 5 6 | 5 => Pcs { phase: "opening", source: Stopped }
script 4 0 0 0 3 0 0 0 | stopped | clear stopping at Verify | 0 | counter | 1 | 5 6 | 5 => Err(InvalidOpeningArgument(Stopped))
script 4 0 0 0 1 0 0 0 | stopped | clear stopping at Verify | 0 | counter | 1 | 5 6 | 5 => Err(OodPointInDomain)
script 4 0 0 0 3 0 0 0 | stopped | masked by 1 stopping at CommitPreprocessing | 0 | preprocessed | 2 | 1 2 3 4 | empty => Pcs { phase: "preprocessing commitment", source: Stopped }
script 4 0 0 0 3 0 0 0 | stopped | masked by 1 stopping at Commit | 0 | counter | 1 | 5 6 | 5 => Pcs { phase: "trace commitment", source: Stopped }
script 4 0 0 0 3 0 0 0 | stopped | masked by 1 stopping at CommitQuotient | 0 | counter | 1 | 5 6 | 5 => Pcs { phase: "quotient commitment", source: Stopped }
script 4 0 0 0 3 0 0 0 | stopped | masked by 1 stopping at CommitQuotient | 0 14 | counter | 1 | 5 6 | 5 => GrindExhausted { bits: 14 }
script 4 0 0 0 3 0 0 0 | stopped | masked by 1 stopping at Randomization | 14 3 | counter | 1 | 5 6 | 5 => Pcs { phase: "randomization commitment", source: Stopped }
script 4 0 0 0 3 0 0 0 | stopped | masked by 1 stopping at Randomization | 0 | counter | 1 | 5 6 | 5 => Pcs { phase: "randomization commitment", source: Stopped }
script 4 0 0 0 3 0 0 0 | stopped | masked by 1 stopping at Open | 0 | counter | 1 | 5 6 | 5 => Pcs { phase: "opening", source: Stopped }
script 4 0 0 0 3 0 0 0 | stopped | masked by 1 stopping at Verify | 0 | counter | 1 | 5 6 | 5 => Err(InvalidOpeningArgument(Stopped))
script 4 0 0 0 1 0 0 0 | stopped | masked by 1 stopping at Verify | 0 | counter | 1 | 5 6 | 5 => Err(OodPointInDomain)

# A counter has no preprocessed columns, and the plain scheme makes no random commitment.
script 4 0 0 0 3 0 0 0 | not made | clear | stopping at CommitPreprocessing | 0 | counter | 1 | 5 6 | 5 => the same
script 4 0 0 0 3 0 0 0 | not made | clear | stopping at Randomization | 0 | counter | 1 | 5 6 | 5 => the same
script 4 0 0 0 3 0 0 0 | not made | masked by 1 | stopping at CommitPreprocessing | 0 | counter | 1 | 5 6 | 5 => the same
"#;

// The masked counter's proof.
const MASKED_PROOF: &str =
    r#"{"commitments":{"quotient_chunks":[[[244,5,1625,1625],[12288,12288,1625,1625],[12288,12288,1625,1625],[12288,12288,1625,1625]],[[1539,5,5269,5269],[12288,12288,5269,5269],[12288,12288,5269,5269],[12288,12288,5269,5269]],[[12049,5,10664,10664],[12288,12288,10664,10664],[12288,12288,10664,10664],[12288,12288,10664,10664]],[[10758,9,3518,3518],[3,3,3518,3518],[3,3,3518,3518],[3,3,3518,3518]]],"random":[[[1,1,1,1],[1,1,1,1],[1,1,1,1],[1,1,1,1]]],"trace":[[[6149,6143,1,1]]]},"degree_bits":2,"ood_pow_witness":0,"opened_values":{"preprocessed_local":null,"preprocessed_next":null,"quotient_chunks":[[[9603,0,0,0],[9340,0,0,0],[9340,0,0,0],[9340,0,0,0]],[[6903,0,0,0],[5345,0,0,0],[5345,0,0,0],[5345,0,0,0]],[[2720,0,0,0],[2941,0,0,0],[2941,0,0,0],[2941,0,0,0]],[[2254,0,0,0],[3770,0,0,0],[3770,0,0,0],[3770,0,0,0]]],"random":[[40,0,0,0],[40,0,0,0],[40,0,0,0],[40,0,0,0]],"trace_local":[[36,0,0,0]],"trace_next":[[12280,0,0,0]]},"opening_proof":null}"#;

/// The answer to a case of these tables.
pub fn answer<F, EF, C>(alloc: Global, challenger: C, case: &str) -> Result<String, Fail>
where
    F: PrimeField64 + TwoAdicField + PackedField + NeverNull,
    EF: PackedExtensionField<F> + JsonCodec,
    C: StarkChallenger<F, EF, ClearCommitment<F>>,
{
    let (_challenger, case) = apart(case)?;
    let (table, text) = apart(case)?;
    match table {
        "made" => made::<F, EF, C>(alloc, challenger, text),
        "stopped" => without_proof(alloc, made::<F, EF, C>(alloc, challenger, text)?),
        "verdict" => without_proof(alloc, made::<F, EF, C>(alloc, challenger, text)?),
        "not made" => not_made::<F, EF, C>(alloc, challenger, text),
        "changed" => changed::<F, EF, C>(alloc, challenger, text),
        _ => Err(Fail::new("no such table")),
    }
}

/// Whole rows of so many columns; none where there are no columns, or the last row isn't whole.
fn matrix<F: PrimeField64>(
    alloc: Global,
    text: &str,
    width: usize,
) -> Result<Option<RowMajorMatrix<F>>, Fail> {
    let values = elements_in::<F>(alloc, text)?;
    if width == 0 || values.len() % width != 0 {
        return Ok(None);
    }
    Ok(Some(RowMajorMatrix::new(values, width)))
}

/// The text of the proof of an AIR's trace of so many rows, and the verifier's answer: the trace |
/// the public values.
pub fn text_at<F, P, A>(
    alloc: Global,
    prover: &P,
    air: &A,
    log_height: usize,
    text: &str,
) -> Result<String, Fail>
where
    F: PrimeField64,
    P: TraceProver<F>,
    A: Air<F>,
{
    let (trace, public_values) = apart(text)?;
    let trace = matrix::<F>(alloc, trace, air.width())?.ok_or("rows that aren't whole")?;
    let public_values = elements_in::<F>(alloc, public_values)?;
    let text = prover.proved_text(alloc, air, log_height, trace, &public_values)?;
    Ok(text.ok_or("a trace that doesn't fit")?)
}

/// The text of a proof of a named AIR, or of one as data, and the verifier's answer: its name or
/// its JSON | the logarithm of the height | the rest.
fn text_by_name<F, P>(alloc: Global, prover: &P, text: &str) -> Result<String, Fail>
where
    F: PrimeField64 + JsonCodec,
    P: TraceProver<F>,
{
    let (name, rest) = apart(text)?;
    let (number, rest) = apart(rest)?;
    let [log_height] = numbers_in::<1>(number)?;
    let air = air_in::<F>(alloc, name)?;
    text_at::<F, P, NamedAir<F>>(alloc, prover, &air, log_height as usize, rest)
}

fn call_in(name: &str) -> Result<ClearCall, Fail> {
    match name {
        "Commit" => Ok(ClearCall::Commit),
        "CommitPreprocessing" => Ok(ClearCall::CommitPreprocessing),
        "CommitQuotient" => Ok(ClearCall::CommitQuotient),
        "Randomization" => Ok(ClearCall::Randomization),
        "Open" => Ok(ClearCall::Open),
        "Verify" => Ok(ClearCall::Verify),
        _ => Err(Fail::new("no such call")),
    }
}

/// A scheme, with its masks where it has some, the call at which it stops, the bits of work before
/// zeta and before alpha, and the rest of a case: an AIR and its trace.
#[derive(Clone, Copy)]
struct Wanted<'a> {
    masks: Option<&'a str>,
    call: Option<ClearCall>,
    bits: [usize; 2],
    trace: &'a str,
}

fn wanted_in(text: &str) -> Result<Wanted<'_>, Fail> {
    let (scheme, rest) = apart(text)?;
    let (bits, trace) = apart(rest)?;
    let (scheme, call) = scheme_in(scheme)?;
    Ok(Wanted {
        masks: scheme.strip_prefix("masked by "),
        call,
        bits: bits_in(bits)?,
        trace,
    })
}

/// The scheme without the call at which it stops, and that call.
fn scheme_in(text: &str) -> Result<(&str, Option<ClearCall>), Fail> {
    match text.split_once(" stopping at ") {
        Some((scheme, call)) => Ok((scheme, Some(call_in(call)?))),
        None => Ok((text, None)),
    }
}

/// The bits of work before zeta and before alpha; none are asked for before alpha where there is
/// one number.
fn bits_in(text: &str) -> Result<[usize; 2], Fail> {
    if text.split_once(' ').is_some() {
        let [ood_bits, alpha_bits] = numbers_in::<2>(text)?;
        return Ok([ood_bits as usize, alpha_bits as usize]);
    }
    let [bits] = numbers_in::<1>(text)?;
    Ok([bits as usize, 0])
}

/// The configuration with a scheme that asks for work.
fn configured<S, EF, C>(scheme: S, challenger: C, bits: [usize; 2]) -> StarkConfig<S, EF, C> {
    let [ood_bits, alpha_bits] = bits;
    let config = StarkConfig::new(scheme, challenger).with_ood_proof_of_work_bits(ood_bits);
    config.with_constraint_proof_of_work_bits(alpha_bits)
}

fn clear_scheme<F>(call: Option<ClearCall>) -> ClearPcs<F> {
    match call {
        Some(call) => ClearPcs::stopping_at(call),
        None => ClearPcs::new(),
    }
}

fn masked_scheme<F: PrimeField64>(
    alloc: Global,
    masks: &str,
    call: Option<ClearCall>,
) -> Result<MaskedClearPcs<F>, Fail> {
    let masks = elements_in::<F>(alloc, masks)?;
    if masks.is_empty() {
        return Err(Fail::new("no masks"));
    }
    match call {
        Some(call) => Ok(MaskedClearPcs::stopping_at(masks, call)),
        None => Ok(MaskedClearPcs::new(masks)),
    }
}

/// The text of a named AIR's proof and the verifier's answer, or the prover's error: the scheme |
/// the rest of a case.
fn made<F, EF, C>(alloc: Global, challenger: C, text: &str) -> Result<String, Fail>
where
    F: PrimeField64 + TwoAdicField + PackedField + NeverNull,
    EF: PackedExtensionField<F> + JsonCodec,
    C: StarkChallenger<F, EF, ClearCommitment<F>>,
{
    let wanted = wanted_in(text)?;
    match wanted.masks {
        Some(masks) => {
            let scheme = masked_scheme::<F>(alloc, masks, wanted.call)?;
            let config = configured(scheme, challenger, wanted.bits);
            text_by_name::<F, MaskedConfig<F, EF, C>>(alloc, &config, wanted.trace)
        }
        None => {
            let config = configured(clear_scheme::<F>(wanted.call), challenger, wanted.bits);
            text_by_name::<F, ClearConfig<F, EF, C>>(alloc, &config, wanted.trace)
        }
    }
}

/// The prover's error, or of a proof the verifier's answer alone, which stands behind the JSON.
fn without_proof(alloc: Global, text: String) -> Result<String, Fail> {
    match text.split_once("} ") {
        Some((_proof, verdict)) => Ok(String::from_str(alloc, verdict)?),
        None => Ok(text),
    }
}

/// Of the scheme | the call at which it stops | the rest of a case, the case without that call and
/// the one with it.
fn without_and_with_call(alloc: Global, text: &str) -> Result<[String; 2], Fail> {
    let (scheme, rest) = apart(text)?;
    let (call, rest) = apart(rest)?;
    Ok([
        format!(in alloc; "{scheme} | {rest}")?,
        format!(in alloc; "{scheme} {call} | {rest}")?,
    ])
}

/// That both are the same, or the second.
fn compared(alloc: Global, whole: &str, stopping: String) -> Result<String, Fail> {
    if whole != stopping.as_str() {
        return Ok(stopping);
    }
    Ok(String::from_str(alloc, "the same")?)
}

/// Whether the whole text is that of the scheme which stops nowhere.
fn not_made<F, EF, C>(alloc: Global, challenger: C, text: &str) -> Result<String, Fail>
where
    F: PrimeField64 + TwoAdicField + PackedField + NeverNull,
    EF: PackedExtensionField<F> + JsonCodec,
    C: StarkChallenger<F, EF, ClearCommitment<F>>,
{
    let again = challenger.duplicate(alloc)?;
    let [whole, stopping] = without_and_with_call(alloc, text)?;
    let whole = made::<F, EF, C>(alloc, again, &whole)?;
    compared(
        alloc,
        &whole,
        made::<F, EF, C>(alloc, challenger, &stopping)?,
    )
}

/// What the verifier answers of the masked counter's proof with a part of it changed.
fn changed<F, EF, C>(alloc: Global, challenger: C, text: &str) -> Result<String, Fail>
where
    F: PrimeField64 + TwoAdicField + PackedField + NeverNull,
    EF: PackedExtensionField<F> + JsonCodec,
    C: StarkChallenger<F, EF, ClearCommitment<F>>,
{
    let (from, to) = apart(text)?;
    let changed = MASKED_PROOF.replacen(alloc, from, to, 1)?;
    let config = masked::<F, EF, C>(alloc, challenger, "1")?;
    let public_values = elements_in::<F>(alloc, "5")?;
    let air = named_air::<F>(alloc, "counter")?;
    let answer = masked_reread::<F, EF, C, NamedAir<F>>(
        alloc,
        &config,
        &air,
        &changed,
        &public_values,
    )?;
    Ok(answer.ok_or("no proof")?)
}
