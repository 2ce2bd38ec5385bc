//! Proofs that `scripts/fri_vectors.py` made, apart from this code, and what its own verifier says
//! of changed ones. Over the field of 12289, its extension of degree four and SHA-256.
use std::test::Fail;

// What the words of the script are of each text: parameters, the logarithm of the height, rounds.
// flat: 1 0 2 0 0 0 1x1
// folded: 1 0 2 0 0 1 1x1
// worked: 1 0 3 1 2 2 1x1
// rounds: 1 1 3 1 1 3 2x2 1x1+1x1
// short: 2 1 2 0 0 1 2x1
// two roots: 1 1 2 0 0 0 1x1 1x1
// false layer: --false-value 1 0 2 0 0 3 1x1
// false end: --false-value 2 1 2 0 0 1 1x1
// nine: 1 1 9 2 5 3 1x1
// five false ends: --false-value 2 1 5 0 0 1 1x1

const FLAT: &str = r#"
{"claims":[{"commitment":"f5160e596b8a1ddd0e4c6da571cc656d0f7fa045766d567be57775c69a698170",
"matrices":[{"log_height":0,"points":[{"point":[8614,5996,1199,10067],"values":[[472,0,0,
0]]}]}]}],"parameters":[1,0,2,0,0],"proof":{"final_polynomial":[[0,0,0,0]],"phases":[],
"queries":[{"inputs":[{"path":["8ad68ce89d520e5051dc2766a587af703b6803709ba19453d4b43f07443af3e0"],
"rows":[[472]]}],"layers":[]},
{"inputs":[{"path":["8ad68ce89d520e5051dc2766a587af703b6803709ba19453d4b43f07443af3e0"],
"rows":[[472]]}],"layers":[]}],"query_witness":0}}"#;

const FOLDED: &str = r#"
{"claims":[{"commitment":"a65d3a4add51f513fee152bde696b5f980a3e1398c01711b2f308891bd2a2f48",
"matrices":[{"log_height":1,"points":[{"point":[474,11738,9406,10019],"values":[[9009,188,10574,
11480]]}]}]}],"parameters":[1,0,2,0,0],"proof":{"final_polynomial":[[3189,0,0,0]],
"phases":[{"commitment":"e0e47d3e8028dd9a65fb269749426e242ce397545984955a7985b2edd3f464c4",
"witness":0}],
"queries":[{"inputs":[{"path":["bd1a06634e33e842600de479e06b59b1ff224ffbd94c4f95c4a58799aa043d1d",
"9182e43a9f5d29767997cf4081240909aac4b3805aa820eb189795b37873b69d"],"rows":[[6653]]}],
"layers":[{"path":["b6adecfd102405ef7b7e98634f02696bc9ec056800adf2305e88a44568745392"],
"sibling":[3189,0,0,0]}]},
{"inputs":[{"path":["07971f6de8deca3d6018118b323de029b7fa00763bb63e2c9fdc4aaa50992c44",
"9182e43a9f5d29767997cf4081240909aac4b3805aa820eb189795b37873b69d"],"rows":[[7182]]}],
"layers":[{"path":["b6adecfd102405ef7b7e98634f02696bc9ec056800adf2305e88a44568745392"],
"sibling":[3189,0,0,0]}]}],"query_witness":0}}"#;

const WORKED: &str = r#"
{"claims":[{"commitment":"1393b884c9130b9bfa559384acb165fac92f18be887d25fe36e22550f7ff590f",
"matrices":[{"log_height":2,"points":[{"point":[7414,6545,3409,1886],"values":[[8723,2849,2406,
8637]]}]}]}],"parameters":[1,0,3,1,2],"proof":{"final_polynomial":[[1873,3073,8472,7664]],
"phases":[{"commitment":"ae326e830f8ffd310cf015e8cf7a883bfc301e63365b36ed1f219bb584028d5a",
"witness":1},{"commitment":"b9777a83277e10a6e7b36e71822ecd1ecee35e8836837a899829c67b9b996a2c",
"witness":2}],
"queries":[{"inputs":[{"path":["abdeb590c048cff7a3ded45bed572d47f375e6ef87dca711fa3dcd796efcd904",
"aee53ce5f006b500273a22ee7a30788ad58607482e64537d11a632b2a078af5b",
"d9a3ed9dd451a3539b886bd64253821efe5f1834aa0946e183c435c14645d42a"],"rows":[[4175]]}],
"layers":[{"path":["cfb17e8f8da70213b916d123af0682e9f9b68063369f70314794847d4f593e33",
"f2a37b382b148fc77dfe1d9f94f8cb9972d105d7bae3b94cb93d1c28d5286761"],"sibling":[3120,2535,6288,
8510]},{"path":["634351be54d784023195fc141dab9fcba48de7f1c2ebe0f0d1925e8f217fc455"],
"sibling":[4744,9709,3791,5250]}]},
{"inputs":[{"path":["dac5791ba6ec3ad9ee1b4864a10c0cbb670d3e04df73584f5b0c95ff6b3e63f6",
"97f7ee0d6e5877bb3a641141ed5d6e1604a469f8b386b644d80cf487023519fe",
"a159cb2f8e991948b92cbfa43aeac8638c6868f537c2aa33f4136feeca365208"],"rows":[[6405]]}],
"layers":[{"path":["3d7f17256e89defb331aaca6ac65bbd79ee197ac23001e721cc4262c639baa08",
"0dee78358a1b7e0f7e492575133449c260f943b78f9dd6daac986600f2a4bb10"],"sibling":[8367,9185,2260,
3066]},{"path":["cd6e69b2d648f41628d40d6c9a10ccea39fa96ce7b66161ffb330d5de92474e8"],
"sibling":[2903,9709,3791,5250]}]},
{"inputs":[{"path":["abdeb590c048cff7a3ded45bed572d47f375e6ef87dca711fa3dcd796efcd904",
"aee53ce5f006b500273a22ee7a30788ad58607482e64537d11a632b2a078af5b",
"d9a3ed9dd451a3539b886bd64253821efe5f1834aa0946e183c435c14645d42a"],"rows":[[4175]]}],
"layers":[{"path":["cfb17e8f8da70213b916d123af0682e9f9b68063369f70314794847d4f593e33",
"f2a37b382b148fc77dfe1d9f94f8cb9972d105d7bae3b94cb93d1c28d5286761"],"sibling":[3120,2535,6288,
8510]},{"path":["634351be54d784023195fc141dab9fcba48de7f1c2ebe0f0d1925e8f217fc455"],
"sibling":[4744,9709,3791,5250]}]}],"query_witness":7}}"#;

const ROUNDS: &str = r#"
{"claims":[{"commitment":"85faef4bec25312be4a71357f61732c4c32014fbfc0bcd253529f92314719ff0",
"matrices":[{"log_height":3,"points":[{"point":[9828,1304,8384,2859],"values":[[7896,11253,2875,
5602],[4403,10019,5855,7743]]},{"point":[6076,1262,6596,6366],"values":[[6076,12033,1958,4021],
[3703,542,4167,6]]}]}]},
{"commitment":"1ad07e45ba3ded1b8a80e184aacd9c32131f6b1242ab1e8cc019adb4fe436f1f",
"matrices":[{"log_height":3,"points":[{"point":[6890,6580,1138,11040],"values":[[10909,6023,8131,
2571]]}]},{"log_height":3,"points":[{"point":[7784,11069,10284,6001],"values":[[8325,5040,4167,
10010]]}]}]}],"parameters":[1,1,3,1,1],"proof":{"final_polynomial":[[8794,3626,6096,7265],[186,
7382,11423,10991]],
"phases":[{"commitment":"39b4f2ef22c36b897eadcfafb99ca9319227ecc4f14c2fee81daf4e79df11e65",
"witness":2},{"commitment":"77c82ce325a951eebf96b09335aeebd3ecae3929f6487b41a92de3c2afa8aca4",
"witness":3}],
"queries":[{"inputs":[{"path":["0c7fe26582294e131f404f6116e2aa7ccac4b3088cfaf43897cf78e787b68042",
"55372cb36f33b457f5f08347a1fe72de0f796f0ece966c4bfd7653bd3796608b",
"362ac3ecd29e9f456654d65c299d4d4ac40bedfec6ada09345ecd9d70665b15f",
"477e2bb362a241a503a924be469d63f884653f7b0dfcc7974104abc84cfc29e0"],"rows":[[6294,1733]]},
{"path":["6a78b989225cc9a67b4516641d8f9fd1d8868aa39471fd2df3838a6d1f9e7eb2",
"c81fa8b16c75e5c1034ce291c684b0bac6fef600c8d122a29deddf8fc2c2fa77",
"0a912a2fef6131fa7051105ff1dc872ba246648e31d13f78a98eb3005a6b062b",
"2cfe62dda660016fa06ed68f8093c228503528cf0bf1a382369e507fe0c116ec"],"rows":[[9611],[8512]]}],
"layers":[{"path":["5ee318aed7d6382870278b2adb2448bd436997f8d516d8689482a389a74d6b7e",
"5f2dc66ca38e1f298d0d5330d3eab99c51763dc8c84f0ee7b3d2bd12e3af3db0",
"4ff5fdeab8df120c44f0f9793f831648e718d3da50e78d69d63cbbe759d6b2eb"],"sibling":[10668,10710,1832,
11505]},{"path":["9538833754bbd0e3cde4264f5b43bda999d6aa0e295006b8ada02177ce10d438",
"8b10153a8fe9f1a111239d95896f970ad90d94419bbac4615fcc2f22a0415ef2"],"sibling":[11558,6619,3265,
10208]}]},{"inputs":[{"path":["4daf3cd0c90a90ac923e91fb385605037af823de9005dbf8319884e1d18e6785",
"da1a4c572b7c95d1e64533a94a6eb0bfae6e122451f01ad8041dac14df18c294",
"3ae43c5b103a2ca0c110fdbaf8b89a1842877b1165e15b2285f6c8d5a6fd3803",
"a7b0facf56a0c04eed5ff63d1df98c08537704e9be79962ba5de5f8521ac08d0"],"rows":[[1208,2651]]},
{"path":["636ec65ac6cb2218829970704ece9ac26377d3d64da008323c4183525a8b83fb",
"6c2b3281315a5162b8e98d2f1fd9788222f4344c2f77bf001b83e3c6f5befcf5",
"f5c501c907ea3f44e0cde9efc1ac39001c45290ef58ab95e5d8dcd421a9e6a50",
"57d29c9c40d419b704f6ccecd7ded0a767a012a0f021166c0c531f694f15481e"],"rows":[[9504],[359]]}],
"layers":[{"path":["9cd792b6ada771e7a4e87cb6f686d4bc0096a3170c1fca469db6e7581bd6ec43",
"2ab294e5e60a9217554e920c4ee5ecd6a3b30847beb4746fd7da40489ac9f0b8",
"1cc66693085ec8356f9116237ae6f2873c4c91b3072c14f9b589b4982b9c67d0"],"sibling":[7591,11891,4805,
11037]},{"path":["533959015fc80ce44bfbf62e462156d77b775eccad07b3530ce559e03c010f7f",
"8b10153a8fe9f1a111239d95896f970ad90d94419bbac4615fcc2f22a0415ef2"],"sibling":[7218,8209,10345,
4617]}]},{"inputs":[{"path":["337a5f20c376b0a1fd0c810ff1d6292a2f326f8aa7dc17fae4de3bdce518a306",
"be24518b88fe63799c488f9a0fee3ff09d7c901ef908abb1cea99769abcea3f2",
"362ac3ecd29e9f456654d65c299d4d4ac40bedfec6ada09345ecd9d70665b15f",
"477e2bb362a241a503a924be469d63f884653f7b0dfcc7974104abc84cfc29e0"],"rows":[[847,1770]]},
{"path":["14e4cb5d2aa64f8221fe050621ecebdc3ae8b06571a5f9ddadd74dfb990ff737",
"9dd8345d157eae0a4439b6a1d78fc9c01ea07e54f45f2a9d0bddbef388f6b800",
"0a912a2fef6131fa7051105ff1dc872ba246648e31d13f78a98eb3005a6b062b",
"2cfe62dda660016fa06ed68f8093c228503528cf0bf1a382369e507fe0c116ec"],"rows":[[9856],[11390]]}],
"layers":[{"path":["96181430608d2f4d9f04587b343c5928f61636ebb3e979588fda764f4b305b67",
"9da514a0eebd72b925f7e2fc10c95155b9e09e949f9da84acbc61e332468ddb6",
"4ff5fdeab8df120c44f0f9793f831648e718d3da50e78d69d63cbbe759d6b2eb"],"sibling":[82,10956,10586,
3721]},{"path":["177eaf7e19490e613edf09cc2a77db023848936f3aca9edc1a03dc53eca50623",
"f4a05d8820babfbc3f256ba1e184209701f89f1f0c439fcb24dd04115741a3b1"],"sibling":[6969,5732,2700,
11450]}]}],"query_witness":1}}"#;

const SHORT: &str = r#"
{"claims":[{"commitment":"78284896bd1e76c4cc13ba4d91461672d7e71499f820dacd9be6acb4392cc3e0",
"matrices":[{"log_height":1,"points":[{"point":[11383,9426,8690,7937],"values":[[10997,9868,6623,
8596],[4724,2475,8305,4552]]}]}]}],"parameters":[2,1,2,0,0],"proof":{"final_polynomial":[[92,2197,
7376,3552],[0,0,0,0]],"phases":[],
"queries":[{"inputs":[{"path":["0bf938db0dffa13d39c513235124b547bdc06e0f66cf67512410c41a15dfbb70",
"32f0d5bd7790af4af8bb577577af748041aabcc9313368ebe274f8f5b645ce9c",
"0b142006d7dbb2372560835fb39938da9ff7ff32774e5da6d3bcb98bcf624664"],"rows":[[10730,6870]]}],
"layers":[]},
{"inputs":[{"path":["4876e0915fafcc03cef29b055976f68297c9a9ece09e5120b7771e2f362c3303",
"b914dd5852efa5bb69d5f62997d18ec709025a23c27f503a7a89e5f16bd03ee2",
"8fc294b486687234bc30558b2d4f8646b528d4300ae5872a46619ec892d58418"],"rows":[[2228,4232]]}],
"layers":[]}],"query_witness":0}}"#;

const TWO_ROOTS: &str = r#"
{"claims":[{"commitment":"909d1d2cac94f9ba15f76b06c064c73c1e6e33a1119219ced26a320d8e691064",
"matrices":[{"log_height":0,"points":[{"point":[7162,5668,830,9124],"values":[[5004,0,0,0]]}]}]},
{"commitment":"f3a98efee3e354070390aab5a7ee8bb7b3212107e000047922d5aa733a6223a0",
"matrices":[{"log_height":0,"points":[{"point":[3304,430,8273,8436],"values":[[4929,0,0,0]]}]}]}],
"parameters":[1,1,2,0,0],"proof":{"final_polynomial":[[0,0,0,0]],"phases":[],
"queries":[{"inputs":[{"path":["d7ef422320c3560226208ff9990b9f200fd800bc16fa32b1d2e36534c2b74f09"],
"rows":[[5004]]},{"path":["fd5290185adb742faba9fab34bcd1d16f03e9dfe6274c27d3b2cce4923a05367"],
"rows":[[4929]]}],"layers":[]},
{"inputs":[{"path":["d7ef422320c3560226208ff9990b9f200fd800bc16fa32b1d2e36534c2b74f09"],
"rows":[[5004]]},{"path":["fd5290185adb742faba9fab34bcd1d16f03e9dfe6274c27d3b2cce4923a05367"],
"rows":[[4929]]}],"layers":[]}],"query_witness":0}}"#;

const FALSE_LAYER: &str = r#"
{"claims":[{"commitment":"11a19c5d203f3cbdc7941b3c0e8f0d45aea44ecddea0e433e187809248197e1b",
"matrices":[{"log_height":3,"points":[{"point":[1193,7718,4889,5639],"values":[[5773,6283,8287,
7469]]}]}]}],"parameters":[1,0,2,0,0],"proof":{"final_polynomial":[[5864,1952,9221,2958]],
"phases":[{"commitment":"ff82926c151a7a98f82723dc41696dab2a65f76ea6ebd1b908c05d3d02d805f5",
"witness":0},{"commitment":"ed78fb94c6b14c2e1bb2b387f3d213abf359d89208e812cc278e54839e9336c6",
"witness":0},{"commitment":"ac2c870acfcc3f8b835dc126e0a53494d920b80eb0de3d6bde062105061b7dc2",
"witness":0}],
"queries":[{"inputs":[{"path":["458db0d49cd2d1ebbff7562b1f03e7a00383c5de9a7a3975654e4ac7ec75088f",
"d82b913d0f3fa1568c8127a32dc5c90c093cea4abf60629bf970c379442baa2f",
"60bde3b96b9e5609b6ee3b819dd98637b4b311a03bc7d58123967b78e9f2ab14",
"a733453aa9b2f28827ba04e2ba2db6be13bc59a2f0a677bde49a6e3486f06e34"],"rows":[[8148]]}],
"layers":[{"path":["548b09c7470238b1c71d8adb83b1e7cd301b1c0d4db292a50b19bc06388fdcad",
"7f9c41fac859afcb7ca662859687f2c8ff301e17712237c04dfcd650e4cd8371",
"f7371259d991aee0d93aee485cbe8fb3dce50a23594b7ab8ad996679620efdda"],"sibling":[478,7098,11637,
1593]},{"path":["5ebf4fbb10696379192ee271a6ab1f2433e83fa27fd2b845d76863b5555d3735",
"a0be80ec38a4f605693a01226b46be51240e82194867cae3046f69899d8369f7"],"sibling":[3101,62,8444,
11169]},{"path":["237b2a6f05183233d7ef4abe1aed7c399f3c50b579e693b4ec015e5e6ca8e5f5"],
"sibling":[7501,4927,3700,7496]}]},
{"inputs":[{"path":["73464cec65aaf9410ad52b7074192070750e4c07f8abde0ae4c38e09ab03974b",
"4014be8c9bf88b350adbff8a6e6f3bdd76815a547af1481b1568382d720932c1",
"60bde3b96b9e5609b6ee3b819dd98637b4b311a03bc7d58123967b78e9f2ab14",
"a733453aa9b2f28827ba04e2ba2db6be13bc59a2f0a677bde49a6e3486f06e34"],"rows":[[1255]]}],
"layers":[{"path":["84c7631382eb00c8d96d2491d13637fd7bbc92dbd651d6d1ae4ed67a8183e42e",
"55a3d4b244bc338697d7ea34e915da1582331996fb1245f5221149a3d578dccb",
"f7371259d991aee0d93aee485cbe8fb3dce50a23594b7ab8ad996679620efdda"],"sibling":[758,3584,1798,
10037]},{"path":["4264060e4adb9e7ac134b7c4109106a1b96df34924e6ec7cbe08bbab7087e4f0",
"6062876baba12302dfe9483db8657d7ff1609c494ffd35cc019338bebdcddb62"],"sibling":[687,557,6321,
2604]},{"path":["237b2a6f05183233d7ef4abe1aed7c399f3c50b579e693b4ec015e5e6ca8e5f5"],
"sibling":[8464,4532,10732,7141]}]}],"query_witness":0}}"#;

const FALSE_END: &str = r#"
{"claims":[{"commitment":"c546a4ec70072ac3b39b7768834c139a81e5fd404199a65aff882633f1f1d24f",
"matrices":[{"log_height":1,"points":[{"point":[4417,1955,7579,5203],"values":[[11583,10403,3098,
1342]]}]}]}],"parameters":[2,1,2,0,0],"proof":{"final_polynomial":[[11276,0,0,0],[0,0,0,0]],
"phases":[],
"queries":[{"inputs":[{"path":["8c8f100d169397296f57efdc802cbc3c65e7063daf914509127a51555ad7084a",
"586d6bee2fff2bed68e3400d694208d4f7d00caf92c26d9dbbb56fbebd378c04",
"a49ebc044943c255ea48eba7c16edb5c523627c955d1c07ff2fd4b64d6c1d4ed"],"rows":[[11403]]}],
"layers":[]},
{"inputs":[{"path":["1d7bd2c146d8f94e0750c76dff00d3cc1783cdfd86430a49afdf502688d8a0ae",
"586d6bee2fff2bed68e3400d694208d4f7d00caf92c26d9dbbb56fbebd378c04",
"a49ebc044943c255ea48eba7c16edb5c523627c955d1c07ff2fd4b64d6c1d4ed"],"rows":[[11859]]}],
"layers":[]}],"query_witness":0}}"#;

const NINE: &str = r#"
{"claims":[{"commitment":"d1913c28f96977672c4a707a9e4c80ba09118a42f646037d0d19f88af623137b",
"matrices":[{"log_height":3,"points":[{"point":[9114,9639,1445,10667],"values":[[1849,6147,9823,
1508]]}]}]}],"parameters":[1,1,9,2,5],"proof":{"final_polynomial":[[7233,10732,1486,5002],[1650,
11210,11651,4192]],
"phases":[{"commitment":"7f56a45f1f7aa0b6451215fc867961656d18dbc97c0a8273f5941ccf553723ef",
"witness":4},{"commitment":"d2d9420eebafe6657613ebc8aa96c438a93fdd9ad7e2c5843a17ef84bc498fd4",
"witness":1}],
"queries":[{"inputs":[{"path":["72a30d9c1087de6fa0e402e27d64103aa4d15522fb1c8802a06654d698fd6145",
"b1d1e7491772a87a986f7e7607a7546ad0d8a43c26d68e02403ced2aa48c1523",
"fb32b39975d0e5ef5e50a447728587d80b426e6316a4189f07c590412c38c05d",
"38c5844ef67d41dffd9516b16a5c17e64af1e4c0f273ad575d4b87bfa48ce0c1"],"rows":[[5293]]}],
"layers":[{"path":["19aefccb0110d1c9b73dc734593693ae2d03f408d710ce6506be1c4378843271",
"87ea547b5b2ac7f9002197e7cd90868269b7d6e8ca436b6c735a79ec02fb678a",
"5776ccc400ec3fe9bd2696b0794c1fb79ea7d5db494a05af89d5745d02dd74d9"],"sibling":[2462,2610,6528,
4482]},{"path":["e57ca4f838c8af59424c3ff4276b5317c014b19a250e139ab1f44e2764766d26",
"c8441297ff22acde4351de7b92004d65682b9138193e15f513432f70fa226c7e"],"sibling":[12252,9614,7849,
9540]}]},{"inputs":[{"path":["a5607c2ef723e17ffdb3ec3d0776a15bdec626823af73c207c1bc129dbe2f887",
"5580342d0ed9c828406bdbd57c92ccaa9160ad54622794db1a2b32bb5bebbba4",
"fb32b39975d0e5ef5e50a447728587d80b426e6316a4189f07c590412c38c05d",
"38c5844ef67d41dffd9516b16a5c17e64af1e4c0f273ad575d4b87bfa48ce0c1"],"rows":[[6322]]}],
"layers":[{"path":["ea64923428ff58afe450ad6e96fc32810c185764c4000b51f7f8ed49fc20154d",
"3cf194954c7d06b72716729cdb825a497617d8a32d6aca3952d69b868b4d83cb",
"5776ccc400ec3fe9bd2696b0794c1fb79ea7d5db494a05af89d5745d02dd74d9"],"sibling":[1774,7719,11744,
1528]},{"path":["03390c582c573f83bbddf23460ca31ff017434ad81038aebfa1d2f336c555754",
"b5b909f308acd36c1c36df0614d268bf176572db5ac1e5ba24c69da26ede5405"],"sibling":[2716,6668,4535,
11166]}]},{"inputs":[{"path":["4ef3d6fdbec35cd66b2d7a909371f03ba2922ed6a6aed9b347891802f858d265",
"73e7eba3ce070a9895bc1c92ef0cd4e2d2d5cb913077c219702334167b7c2584",
"a2bedfcd5ee96c6bcee5bb31aab96e8b1be8143c49fcba5eeae132b08598ef4c",
"38c5844ef67d41dffd9516b16a5c17e64af1e4c0f273ad575d4b87bfa48ce0c1"],"rows":[[6723]]}],
"layers":[{"path":["a53164f1b5738a1a6f572137c53085e61334dd7e6de757661b45129dc5a956d4",
"352806372aba0e73282f50fa3055fad32a1cf164a2db9fe05158aa3bfc25df72",
"c56872c8bec0d76e3c40d0ba0056fbc713d66be50a7bf2369a6bb81171bacfbb"],"sibling":[726,9039,2130,
581]},{"path":["03390c582c573f83bbddf23460ca31ff017434ad81038aebfa1d2f336c555754",
"b5b909f308acd36c1c36df0614d268bf176572db5ac1e5ba24c69da26ede5405"],"sibling":[3090,9593,10724,
6215]}]},{"inputs":[{"path":["8b36587e2ce297f01bdf90768a2d80977c4688a441f9618f85e61a8fe9150d35",
"f556e4182730b05d1f08e634ceb6655c0efd8da89932c2d15af638f8c9dd37d2",
"dbcfbbe7398ad619b8413b546bc4f3debada684f59e8c93ce0785d534c4d5b23",
"e6ec6f13a2052af0aa336996d3feddb4c1928b16652fa6f544c8c73dcbd75f0b"],"rows":[[2370]]}],
"layers":[{"path":["cfbe1932b38f93eba2a2c24b804115dda01946f8a241ef990365a4085d7d7a63",
"fdd3479675bf533ad82f1fb343b6eacf5f52945d47978c0d105bfe69aa9be013",
"c56872c8bec0d76e3c40d0ba0056fbc713d66be50a7bf2369a6bb81171bacfbb"],"sibling":[4188,11733,4658,
4271]},{"path":["a8bbf98d3a4f7c1e1d62fc2f5ede6bb2d595d7d4ecf922cba24c0b6ed966988f",
"c8441297ff22acde4351de7b92004d65682b9138193e15f513432f70fa226c7e"],"sibling":[11655,461,8006,
9402]}]},{"inputs":[{"path":["540b12b9f77c978fd6dd80240d1a16a599e0a3d44c1f70a795dcc04e7073258c",
"f4f362ec54343c9651b5768224f7c60575c711664382ca9de04c0178092a7058",
"dafcde73c2d907b993f6dbc1f7d9ffb6c642d3de7bbeea92e27d4bd070d5cda2",
"e6ec6f13a2052af0aa336996d3feddb4c1928b16652fa6f544c8c73dcbd75f0b"],"rows":[[5139]]}],
"layers":[{"path":["c87f34313986c32f5151756f060844982cc6b7586e16631650c8bab1aa675177",
"3cf194954c7d06b72716729cdb825a497617d8a32d6aca3952d69b868b4d83cb",
"5776ccc400ec3fe9bd2696b0794c1fb79ea7d5db494a05af89d5745d02dd74d9"],"sibling":[11197,4303,9198,
11170]},{"path":["05c5ad0364c6cc5844a768b901fc9c71f17ac200247882429144e89ec720bc8d",
"b5b909f308acd36c1c36df0614d268bf176572db5ac1e5ba24c69da26ede5405"],"sibling":[11694,5712,6974,
1396]}]},{"inputs":[{"path":["8bd08f9a8d64c6b0316a4dc880b96363890270e47738e9054a8e3d2e07fc8a90",
"763a56715b3cc99f2de70950639bd5f7dd7be8302a319ed716a3d03374aa4a24",
"dafcde73c2d907b993f6dbc1f7d9ffb6c642d3de7bbeea92e27d4bd070d5cda2",
"e6ec6f13a2052af0aa336996d3feddb4c1928b16652fa6f544c8c73dcbd75f0b"],"rows":[[4005]]}],
"layers":[{"path":["19aefccb0110d1c9b73dc734593693ae2d03f408d710ce6506be1c4378843271",
"87ea547b5b2ac7f9002197e7cd90868269b7d6e8ca436b6c735a79ec02fb678a",
"5776ccc400ec3fe9bd2696b0794c1fb79ea7d5db494a05af89d5745d02dd74d9"],"sibling":[2684,11410,5362,
2911]},{"path":["e57ca4f838c8af59424c3ff4276b5317c014b19a250e139ab1f44e2764766d26",
"c8441297ff22acde4351de7b92004d65682b9138193e15f513432f70fa226c7e"],"sibling":[12252,9614,7849,
9540]}]},{"inputs":[{"path":["9ae4bc246f2e78279d68043c6f696667466cf506eb375381d436c4963cadaec6",
"ad2746dd18101b3bde0361e4b4c49b97d95e5ecccd7e06cf2acaaa5cfb783843",
"a2bedfcd5ee96c6bcee5bb31aab96e8b1be8143c49fcba5eeae132b08598ef4c",
"38c5844ef67d41dffd9516b16a5c17e64af1e4c0f273ad575d4b87bfa48ce0c1"],"rows":[[7926]]}],
"layers":[{"path":["4b46d82ec991e4d4d425dcd0c57ae6671603fa8d0595faf8c31fdfafdb87806b",
"fdd3479675bf533ad82f1fb343b6eacf5f52945d47978c0d105bfe69aa9be013",
"c56872c8bec0d76e3c40d0ba0056fbc713d66be50a7bf2369a6bb81171bacfbb"],"sibling":[3020,10060,9662,
10912]},{"path":["e57ca4f838c8af59424c3ff4276b5317c014b19a250e139ab1f44e2764766d26",
"c8441297ff22acde4351de7b92004d65682b9138193e15f513432f70fa226c7e"],"sibling":[9137,9267,9623,
7825]}]},{"inputs":[{"path":["6479b204a405bf7247c3a8f805bfdec8f05607342d2fe0fd06b3e6e45bf9cbbb",
"f4f362ec54343c9651b5768224f7c60575c711664382ca9de04c0178092a7058",
"dafcde73c2d907b993f6dbc1f7d9ffb6c642d3de7bbeea92e27d4bd070d5cda2",
"e6ec6f13a2052af0aa336996d3feddb4c1928b16652fa6f544c8c73dcbd75f0b"],"rows":[[7444]]}],
"layers":[{"path":["ea64923428ff58afe450ad6e96fc32810c185764c4000b51f7f8ed49fc20154d",
"3cf194954c7d06b72716729cdb825a497617d8a32d6aca3952d69b868b4d83cb",
"5776ccc400ec3fe9bd2696b0794c1fb79ea7d5db494a05af89d5745d02dd74d9"],"sibling":[4800,7927,5633,
9892]},{"path":["03390c582c573f83bbddf23460ca31ff017434ad81038aebfa1d2f336c555754",
"b5b909f308acd36c1c36df0614d268bf176572db5ac1e5ba24c69da26ede5405"],"sibling":[2716,6668,4535,
11166]}]},{"inputs":[{"path":["391dc9b883ff254a3fe4df4d901158533fe2d9c53190f7a43a71000a78de1007",
"5580342d0ed9c828406bdbd57c92ccaa9160ad54622794db1a2b32bb5bebbba4",
"fb32b39975d0e5ef5e50a447728587d80b426e6316a4189f07c590412c38c05d",
"38c5844ef67d41dffd9516b16a5c17e64af1e4c0f273ad575d4b87bfa48ce0c1"],"rows":[[1087]]}],
"layers":[{"path":["c87f34313986c32f5151756f060844982cc6b7586e16631650c8bab1aa675177",
"3cf194954c7d06b72716729cdb825a497617d8a32d6aca3952d69b868b4d83cb",
"5776ccc400ec3fe9bd2696b0794c1fb79ea7d5db494a05af89d5745d02dd74d9"],"sibling":[7573,6566,3506,
8229]},{"path":["05c5ad0364c6cc5844a768b901fc9c71f17ac200247882429144e89ec720bc8d",
"b5b909f308acd36c1c36df0614d268bf176572db5ac1e5ba24c69da26ede5405"],"sibling":[11694,5712,6974,
1396]}]}],"query_witness":14}}"#;

const FIVE_FALSE_ENDS: &str = r#"
{"claims":[{"commitment":"89b4bde5de5e1935834eba80e52b9c91218754e163ae8bf69ec379b36b465cfc",
"matrices":[{"log_height":1,"points":[{"point":[11071,11959,2350,1142],"values":[[2076,5841,7561,
11738]]}]}]}],"parameters":[2,1,5,0,0],"proof":{"final_polynomial":[[3669,0,0,0],[0,0,0,0]],
"phases":[],
"queries":[{"inputs":[{"path":["08446853fb2f7a28f525e2c5dd41689a6115373283f1b7133b7f7e896df7ba7f",
"ae6bb67586afc6bff4ca358ad9b6e3edd4d2ecd2ec7036cea61c692d7e68f3cb",
"5020d8577c169b44ec95b2fa955fb046735aa594abb42a597146efb4ee95f425"],"rows":[[11915]]}],
"layers":[]},
{"inputs":[{"path":["c4318d7765ae574d3cf944b938196721d4c05a16d4400346d051c7b7ebf9678f",
"6fd6eec5997e40a46a53d3732fbf1b1e0ca2b416f13a03b232710006e76bdbd1",
"5020d8577c169b44ec95b2fa955fb046735aa594abb42a597146efb4ee95f425"],"rows":[[1035]]}],
"layers":[]},
{"inputs":[{"path":["5452f2d60268222cb22f674e517c38b18c04418d95dbd1cdf949499de04ef25f",
"3974c6bb4c6c2438c3857b608bc561cb79eee637fc14cdb0ac74cc34b84814f1",
"754f1c6b95fe2f4362d79f441579072a0d83b4468ee596462bfbbf883bea5e09"],"rows":[[6518]]}],
"layers":[]},
{"inputs":[{"path":["68445bafdf8e76d620636bb78c43f5e958620d29b2308fc3ea7da8e0a6c000f4",
"f22c2f99f9b603856b229a65243d56bc29ae2b39513c579ad5a639f35e97e0b5",
"754f1c6b95fe2f4362d79f441579072a0d83b4468ee596462bfbbf883bea5e09"],"rows":[[6696]]}],
"layers":[]},
{"inputs":[{"path":["63aa9bdb81e9f7c742c83c698444aa94c751470fbd69d058988d3160ff6495d0",
"f22c2f99f9b603856b229a65243d56bc29ae2b39513c579ad5a639f35e97e0b5",
"754f1c6b95fe2f4362d79f441579072a0d83b4468ee596462bfbbf883bea5e09"],"rows":[[6722]]}],
"layers":[]}],"query_witness":0}}"#;

/// The text of a name.
pub fn text_of(name: &str) -> Result<&'static str, Fail> {
    match name {
        "flat" => Ok(FLAT),
        "folded" => Ok(FOLDED),
        "worked" => Ok(WORKED),
        "rounds" => Ok(ROUNDS),
        "short" => Ok(SHORT),
        "two roots" => Ok(TWO_ROOTS),
        "false layer" => Ok(FALSE_LAYER),
        "false end" => Ok(FALSE_END),
        "nine" => Ok(NINE),
        "five false ends" => Ok(FIVE_FALSE_ENDS),
        _ => Err(Fail::new("no such text")),
    }
}

// A name, and the edits behind a bar, if there are some => the answer.
pub const CASES: &str = r#"
# As they were made: of true values, and two of a value that is one too large.
flat => accepted
folded => accepted
worked => accepted
rounds => accepted
short => accepted
two roots => accepted
false layer => Query { query: 0, fault: Layer { layer: 0 } }
false end => Query { query: 0, fault: Final }
nine => accepted
five false ends => Query { query: 0, fault: Final }

# Claims alone: none, another height, too high, other numbers of values, a point on the coset.
folded | "claims":[ > "claims":[],"unread":[ => NoClaims
folded | "matrices":[ > "matrices":[],"unread":[ => NoClaims
rounds | "log_height":3 > "log_height":2 => MixedHeights { round: 1 }
folded | "log_height":1 > "log_height":12 => TooHigh
folded | "log_height":1 > "log_height":11 => CommitPhases
rounds | "values":[[ > "values":[[0,0,0,0],[ => Widths { round: 0 }
folded | [474,11738,9406,10019] > [11,0,0,0] => PointOnCoset { round: 0 }
rounds | [7784,11069,10284,6001] > [11,0,0,0] => PointOnCoset { round: 1 }
folded | [474,11738,9406,10019] > [12278,0,0,0] => PointOnCoset { round: 0 }
folded | [474,11738,9406,10019] > [1,0,0,0] => Query { query: 0, fault: Input { round: 0 } }

# Another number of folds, of coefficients, of queries.
folded | "phases":[ > "phases":[],"unread":[ => CommitPhases
folded | "parameters":[1,0, > "parameters":[1,1, => CommitPhases
short | "parameters":[2,1, > "parameters":[2,0, => CommitPhases
flat | "phases":[ > "phases":[{"commitment":"0000000000000000000000000000000000000000000000000000000000000000","witness":0} => CommitPhases
folded | "final_polynomial":[ > "final_polynomial":[[0,0,0,0], => FinalPolynomial
folded | "final_polynomial":[ > "final_polynomial":[],"unread":[ => FinalPolynomial
short | "final_polynomial":[ > "final_polynomial":[[0,0,0,0], => FinalPolynomial
short | "final_polynomial":[ > "final_polynomial":[],"unread":[ => FinalPolynomial
folded | "queries":[ > "queries":[],"unread":[ => Queries
folded | "queries":[ > "queries":[{"inputs":[],"layers":[]}, => Queries
folded | "parameters":[1,0,2 > "parameters":[1,0,3 => Queries
folded | "parameters":[1,0,2 > "parameters":[1,0,1 => Queries

# Witnesses that do not pass.
worked | "witness":1 > "witness":0 => CommitWork { phase: 0 }
worked | "query_witness":7 > "query_witness":0 => QueryWork
worked | 9b996a2c","witness":2 > 9b996a2c","witness":0 => CommitWork { phase: 1 }

# Another number of rounds, folds, rows or values in a query.
folded | "inputs":[ > "inputs":[],"unread":[ => Query { query: 0, fault: Shape }
folded | "layers":[ > "layers":[],"unread":[ => Query { query: 0, fault: Shape }
folded | "rows":[[ > "rows":[[0],[ => Query { query: 0, fault: Shape }
folded | "rows":[[ > "rows":[],"unread":[[ => Query { query: 0, fault: Shape }
folded | "rows":[[ > "rows":[[0, => Query { query: 0, fault: Shape }
flat | "layers":[ > "layers":[{"path":[],"sibling":[0,0,0,0]} => Query { query: 0, fault: Shape }
two roots | "rows":[[ > "rows":[[],[ => Query { query: 0, fault: Shape }

# Rows, paths and roots of rounds.
folded | 8891bd2a2f48" > 8891bd2a2f40" => Query { query: 0, fault: Input { round: 0 } }
folded | "rows":[[6653]] > "rows":[[6654]] => Query { query: 0, fault: Input { round: 0 } }
folded | "rows":[[7182]] > "rows":[[7183]] => Query { query: 1, fault: Input { round: 0 } }
folded | 8799aa043d1d" > 8799aa043d10" => Query { query: 0, fault: Input { round: 0 } }
folded | 95b37873b69d" > 95b37873b690" => Query { query: 0, fault: Input { round: 0 } }
folded | "path":[" > "path":["0000000000000000000000000000000000000000000000000000000000000000"," => Query { query: 0, fault: Input { round: 0 } }
folded | "path":[ > "path":[],"unread":[ => Query { query: 0, fault: Input { round: 0 } }
two roots | [[4929]] > [[4930]] => Query { query: 0, fault: Input { round: 1 } }
rounds | b3005a6b062b" > b3005a6b0620" => Query { query: 0, fault: Input { round: 1 } }
rounds | 4dfb990ff737" > 4dfb990ff730" => Query { query: 2, fault: Input { round: 1 } }
rounds | adb4fe436f1f" > adb4fe436f10" => CommitWork { phase: 0 }

# Pairs, paths and roots of folds; the end.
folded | "sibling":[3189,0,0,0] > "sibling":[3190,0,0,0] => Query { query: 0, fault: Layer { layer: 0 } }
folded | a44568745392" > a44568745390" => Query { query: 0, fault: Layer { layer: 0 } }
folded | "layers":[{"path":[ > "layers":[{"path":[],"unread":[ => Query { query: 0, fault: Layer { layer: 0 } }
worked | 5e8f217fc455" > 5e8f217fc450" => Query { query: 0, fault: Layer { layer: 1 } }
folded | b2edd3f464c4" > b2edd3f464c0" => Query { query: 0, fault: Input { round: 0 } }
short | "final_polynomial":[[92, > "final_polynomial":[[93, => Query { query: 0, fault: Input { round: 0 } }
flat | "final_polynomial":[[0, > "final_polynomial":[[1, => Query { query: 0, fault: Final }

# One query of nine at fault, at each place of two groups of four and behind them: its row, the pair
# of its first layer and of its second one, its shape.
nine | "rows":[[5293]] > "rows":[[5294]] => Query { query: 0, fault: Input { round: 0 } }
nine | "rows":[[6322]] > "rows":[[6323]] => Query { query: 1, fault: Input { round: 0 } }
nine | "rows":[[6723]] > "rows":[[6724]] => Query { query: 2, fault: Input { round: 0 } }
nine | "rows":[[2370]] > "rows":[[2371]] => Query { query: 3, fault: Input { round: 0 } }
nine | "rows":[[5139]] > "rows":[[5140]] => Query { query: 4, fault: Input { round: 0 } }
nine | "rows":[[4005]] > "rows":[[4006]] => Query { query: 5, fault: Input { round: 0 } }
nine | "rows":[[7926]] > "rows":[[7927]] => Query { query: 6, fault: Input { round: 0 } }
nine | "rows":[[7444]] > "rows":[[7445]] => Query { query: 7, fault: Input { round: 0 } }
nine | "rows":[[1087]] > "rows":[[1088]] => Query { query: 8, fault: Input { round: 0 } }
nine | "sibling":[2462,2610,6528,4482] > "sibling":[2463,2610,6528,4482] => Query { query: 0, fault: Layer { layer: 0 } }
nine | "sibling":[1774,7719,11744,1528] > "sibling":[1775,7719,11744,1528] => Query { query: 1, fault: Layer { layer: 0 } }
nine | "sibling":[726,9039,2130,581] > "sibling":[727,9039,2130,581] => Query { query: 2, fault: Layer { layer: 0 } }
nine | "sibling":[4188,11733,4658,4271] > "sibling":[4189,11733,4658,4271] => Query { query: 3, fault: Layer { layer: 0 } }
nine | "sibling":[11197,4303,9198,11170] > "sibling":[11198,4303,9198,11170] => Query { query: 4, fault: Layer { layer: 0 } }
nine | "sibling":[2684,11410,5362,2911] > "sibling":[2685,11410,5362,2911] => Query { query: 5, fault: Layer { layer: 0 } }
nine | "sibling":[3020,10060,9662,10912] > "sibling":[3021,10060,9662,10912] => Query { query: 6, fault: Layer { layer: 0 } }
nine | "sibling":[4800,7927,5633,9892] > "sibling":[4801,7927,5633,9892] => Query { query: 7, fault: Layer { layer: 0 } }
nine | "sibling":[7573,6566,3506,8229] > "sibling":[7574,6566,3506,8229] => Query { query: 8, fault: Layer { layer: 0 } }
nine | "sibling":[2716,6668,4535,11166] > "sibling":[2717,6668,4535,11166] => Query { query: 1, fault: Layer { layer: 1 } }
nine | "sibling":[3090,9593,10724,6215] > "sibling":[3091,9593,10724,6215] => Query { query: 2, fault: Layer { layer: 1 } }
nine | "sibling":[11655,461,8006,9402] > "sibling":[11656,461,8006,9402] => Query { query: 3, fault: Layer { layer: 1 } }
nine | "sibling":[11694,5712,6974,1396] > "sibling":[11695,5712,6974,1396] => Query { query: 4, fault: Layer { layer: 1 } }
nine | "sibling":[9137,9267,9623,7825] > "sibling":[9138,9267,9623,7825] => Query { query: 6, fault: Layer { layer: 1 } }
nine | "rows":[[5293]] > "rows":[[5293,0]] => Query { query: 0, fault: Shape }
nine | "rows":[[2370]] > "rows":[[2370,0]] => Query { query: 3, fault: Shape }
nine | "rows":[[5139]] > "rows":[[5139,0]] => Query { query: 4, fault: Shape }
nine | "rows":[[7444]] > "rows":[[7444,0]] => Query { query: 7, fault: Shape }
nine | "rows":[[1087]] > "rows":[[1087,0]] => Query { query: 8, fault: Shape }

# Two of nine at fault, in one group or in two: the first of them is told.
nine | "rows":[[2370]] > "rows":[[2371]] & "sibling":[1774,7719,11744,1528] > "sibling":[1775,7719,11744,1528] => Query { query: 1, fault: Layer { layer: 0 } }
nine | "sibling":[2462,2610,6528,4482] > "sibling":[2463,2610,6528,4482] & "rows":[[6723]] > "rows":[[6724]] => Query { query: 0, fault: Layer { layer: 0 } }
nine | "rows":[[2370]] > "rows":[[2370,0]] & "rows":[[6322]] > "rows":[[6323]] => Query { query: 1, fault: Input { round: 0 } }
nine | "rows":[[4005]] > "rows":[[4006]] & "sibling":[726,9039,2130,581] > "sibling":[727,9039,2130,581] => Query { query: 2, fault: Layer { layer: 0 } }
nine | "rows":[[5139]] > "rows":[[5140]] & "rows":[[1087]] > "rows":[[1088]] => Query { query: 4, fault: Input { round: 0 } }
nine | "rows":[[7444]] > "rows":[[7444,0]] & "sibling":[3020,10060,9662,10912] > "sibling":[3021,10060,9662,10912] => Query { query: 6, fault: Layer { layer: 0 } }

# Values, points and parameters that differ are drawn for otherwise.
flat | "values":[[472, > "values":[[473, => Query { query: 0, fault: Final }
folded | "values":[[9009, > "values":[[9010, => Query { query: 0, fault: Input { round: 0 } }
folded | "point":[474, > "point":[475, => Query { query: 0, fault: Input { round: 0 } }
folded | "parameters":[1, > "parameters":[2, => Query { query: 0, fault: Input { round: 0 } }
folded | "parameters":[1,0,2,0,0 > "parameters":[1,0,2,1,0 => Query { query: 0, fault: Input { round: 0 } }
folded | "parameters":[1,0,2,0,0 > "parameters":[1,0,2,0,1 => Query { query: 1, fault: Input { round: 0 } }
folded | "query_witness":0 > "query_witness":1 => QueryWork
rounds | "parameters":[1,1, > "parameters":[1,2, => CommitPhases

# Each two faults that are neighbours in the order: the first is told.
rounds | "log_height":3 > "log_height":12 & "values":[[ > "values":[[0,0,0,0],[ => MixedHeights { round: 1 }
rounds | "log_height":3 > "log_height":12 & "log_height":3 > "log_height":12 & "log_height":3 > "log_height":12 & "values":[[ > "values":[[0,0,0,0],[ => TooHigh
folded | "log_height":1 > "log_height":12 & [474,11738,9406,10019] > [11,0,0,0] => TooHigh
rounds | "values":[[ > "values":[[0,0,0,0],[ & [9828,1304,8384,2859] > [11,0,0,0] => Widths { round: 0 }
folded | [474,11738,9406,10019] > [11,0,0,0] & "phases":[ > "phases":[],"unread":[ => PointOnCoset { round: 0 }
folded | "phases":[ > "phases":[],"unread":[ & "final_polynomial":[ > "final_polynomial":[[0,0,0,0], => CommitPhases
folded | "final_polynomial":[ > "final_polynomial":[[0,0,0,0], & "queries":[ > "queries":[],"unread":[ => FinalPolynomial
worked | "queries":[ > "queries":[],"unread":[ & "witness":1 > "witness":0 => Queries
worked | "witness":1 > "witness":0 & "query_witness":7 > "query_witness":0 => CommitWork { phase: 0 }
worked | "query_witness":7 > "query_witness":0 & "inputs":[ > "inputs":[],"unread":[ => QueryWork
folded | "rows":[[ > "rows":[[0, & "path":[" > "path":["0000000000000000000000000000000000000000000000000000000000000000"," => Query { query: 0, fault: Shape }
folded | "path":[ > "path":[],"unread":[ & "layers":[{"path":[ > "layers":[{"path":[],"unread":[ => Query { query: 0, fault: Input { round: 0 } }
two roots | "path":[ > "path":[],"unread":[ & [[4929]] > [[4930]] => Query { query: 0, fault: Input { round: 0 } }
"#;
