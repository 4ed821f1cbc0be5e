//! Worked lines: each is a record's full line without its trailing spaces. A record of a transaction is numbered in its
//! name: first the transaction in its group, then the record in its transaction.

/// HDR.
pub const HDR: &[u8] =
    b"HDRPB123456789MUSIC HOUSE                                  01.102024010210150020240103";

/// HDR with another version of the standard.
pub const HDR_OF_ANOTHER_VERSION: &[u8] =
    b"HDRPB123456789MUSIC HOUSE                                  01.002024010210150020240103";

/// GRH of type ACK, the first group.
pub const GRH_ACK: &[u8] = b"GRHACK0000102.100000000001";

/// GRH of type ACK, the second group.
pub const GRH_ACK_2: &[u8] = b"GRHACK0000202.100000000001";

/// GRH of type NWR, the first group.
pub const GRH_NWR: &[u8] = b"GRHNWR0000102.100000000001";

/// GRH of type REV, the second group.
pub const GRH_REV_2: &[u8] = b"GRHREV0000202.100000000001";

/// GRH of type AGR, the first group.
pub const GRH_AGR: &[u8] = b"GRHAGR0000102.100000000001";

/// ACK, which opens transaction 0, of a new work.
pub const ACK_0: &[u8] =
    b"ACK0000000000000000202401021015000000100000000NWRBLUE RIVER                                                  W0001                                   20240110AS";

/// ACK, which opens transaction 1, of a new work.
pub const ACK_1: &[u8] =
    b"ACK0000000100000000202401021015000000100000000NWRBLUE RIVER                                                  W0001                                   20240110AS";

/// MSG, record 1 of transaction 0.
pub const MSG_0_1: &[u8] = b"MSG0000000000000001F           F   TITLE CHANGED";

/// NWR, which opens transaction 0.
pub const NWR_0: &[u8] =
    b"NWR0000000000000000BLUE RIVER                                                    W0001                                        POP             ORI";

/// The same with an ISWC whose check digit is wrong.
pub const NWR_0_WITH_WRONG_ISWC: &[u8] =
    b"NWR0000000000000000BLUE RIVER                                                    W0001         T0345246802                    POP             ORI";

/// NWR, which opens transaction 1.
pub const NWR_1: &[u8] =
    b"NWR0000000100000000BLUE RIVER                                                    W0001                                        POP             ORI";

/// NWR, which opens transaction 1, with a category that is no code.
pub const NWR_1_OF_UNKNOWN_CATEGORY: &[u8] =
    b"NWR0000000100000000BLUE RIVER                                                    W0001                                        ROC             ORI";

/// REV, which opens transaction 0.
pub const REV_0: &[u8] =
    b"REV0000000000000000RED HILL                                                      W0002                                                        ORI";

/// REV, which opens transaction 1, of another work.
pub const REV_1: &[u8] =
    b"REV0000000100000000GREEN SEA                                                     W0003                                                        ORI";

/// SPU, record 1 of transaction 0.
pub const SPU_0_1: &[u8] =
    b"SPU000000000000000101P1       MUSIC HOUSE                                   E                                      02500   05000   05000";

/// SPU, record 2 of transaction 0.
pub const SPU_0_2: &[u8] =
    b"SPU000000000000000201P1       MUSIC HOUSE                                   E                                      02500   05000   05000";

/// SPT, record 2 of transaction 0.
pub const SPT_0_2: &[u8] = b"SPT0000000000000002P1             050001000010000I2136 001";

/// OPU, record 3 of transaction 0.
pub const OPU_0_3: &[u8] =
    b"OPU000000000000000302                                                      Y                                       02500   05000   05000";

/// SWR, record 1 of transaction 0.
pub const SWR_0_1: &[u8] =
    b"SWR0000000000000001W1       SMITH                                        ANNA                           CA";

/// SWR, record 1 of transaction 1.
pub const SWR_1_1: &[u8] =
    b"SWR0000000100000001W1       SMITH                                        ANNA                           CA";

/// The same of a writer who arranged music.
pub const SWR_1_1_OF_AN_ARRANGER: &[u8] =
    b"SWR0000000100000001W1       SMITH                                        ANNA                           AR";

/// SWR, record 3 of transaction 0.
pub const SWR_0_3: &[u8] =
    b"SWR0000000000000003W1       SMITH                                        ANNA                           CA";

/// SWR, record 4 of transaction 0, with its share in performing rights.
pub const SWR_0_4_WITH_SHARE: &[u8] =
    b"SWR0000000000000004W1       SMITH                                        ANNA                           CA                       02500";

/// SWR, record 3 of transaction 0, with its share in performing rights.
pub const SWR_0_3_WITH_SHARE: &[u8] =
    b"SWR0000000000000003W1       SMITH                                        ANNA                           CA                       02500";

/// SWR, record 1 of transaction 1, whose share in performing rights is over the whole.
pub const SWR_1_1_OVER_THE_WHOLE: &[u8] =
    b"SWR0000000100000001W1       SMITH                                        ANNA                           CA                       10001";

/// SWR, record 1 of transaction 1, without a last name.
pub const SWR_1_1_WITHOUT_NAME: &[u8] =
    b"SWR0000000100000001W1                                                    ANNA                           CA";

/// SWT, record 5 of transaction 0.
pub const SWT_0_5: &[u8] = b"SWT0000000000000005W1       05000          I2136 001";

/// PWR, record 6 of transaction 0.
pub const PWR_0_6: &[u8] =
    b"PWR0000000000000006P1       MUSIC HOUSE                                                              W1";

/// OWR, record 7 of transaction 0.
pub const OWR_0_7: &[u8] =
    b"OWR0000000000000007         JONES                                                                       A                        02500";

/// ALT, record 8 of transaction 0.
pub const ALT_0_8: &[u8] =
    b"ALT0000000000000008BLUE RIVERS                                                 AT";

/// ALT, record 10 of transaction 0.
pub const ALT_0_10: &[u8] =
    b"ALT0000000000000010BLUE RIVERS                                                 AT";

/// PER, record 9 of transaction 0.
pub const PER_0_9: &[u8] = b"PER0000000000000009SMITH                                        ANNA";

/// REC, record 8 of transaction 0.
pub const REC_0_8: &[u8] = b"REC000000000000000820240101";

/// REC, record 10 of transaction 0.
pub const REC_0_10: &[u8] = b"REC000000000000001020240101";

/// EWT, record 2 of transaction 0.
pub const EWT_0_2: &[u8] = b"EWT0000000000000002RIVER SUITE";

/// VER, record 2 of transaction 0, with a title and the number of a work.
pub const VER_0_2: &[u8] =
    b"VER0000000000000002RIVER SUITE                                                                                                                                                                                                                                                                                                                                W0004";

/// ORN, record 3 of transaction 0, with a purpose, a year and a number.
pub const ORN_0_3: &[u8] =
    b"ORN0000000000000003LIB                                                                                                                                                                                                                                                                 2024   AV0001";

/// COM, record 4 of transaction 0, with a title, a duration and the number of a writer.
pub const COM_0_4: &[u8] =
    b"COM0000000000000004RIVER SONG                                                                           000312                                                                                                                                                                                         I0001";

/// AGR, which opens transaction 0.
pub const AGR_0: &[u8] = b"AGR0000000000000000AGR0001                     OS";

/// TER, record 1 of transaction 0.
pub const TER_0_1: &[u8] = b"TER0000000000000001I2136";

/// TER, record 2 of transaction 0.
pub const TER_0_2: &[u8] = b"TER0000000000000002I2136";

/// TER, record 3 of transaction 0.
pub const TER_0_3: &[u8] = b"TER0000000000000003I2136";

/// TER, record 4 of transaction 0.
pub const TER_0_4: &[u8] = b"TER0000000000000004I2136";

/// IPA, record 2 of transaction 0, of an assignor.
pub const IPA_AS_0_2: &[u8] = b"IPA0000000000000002AS                                 SMITH";

/// IPA, record 3 of transaction 0, of an assignor.
pub const IPA_AS_0_3: &[u8] = b"IPA0000000000000003AS                                 SMITH";

/// IPA, record 6 of transaction 0, of an assignor.
pub const IPA_AS_0_6: &[u8] = b"IPA0000000000000006AS                                 SMITH";

/// IPA, record 3 of transaction 0, of an acquirer.
pub const IPA_AC_0_3: &[u8] = b"IPA0000000000000003AC                                 MUSIC HOUSE";

/// IPA, record 4 of transaction 0, of an acquirer.
pub const IPA_AC_0_4: &[u8] = b"IPA0000000000000004AC                                 MUSIC HOUSE";

/// IPA, record 5 of transaction 0, of an acquirer.
pub const IPA_AC_0_5: &[u8] = b"IPA0000000000000005AC                                 MUSIC HOUSE";

/// A writer after a header and another record, and after three records.
pub const SWR_0_2: &[u8] =
    b"SWR0000000000000002W1       SMITH                                        ANNA                           CA";

pub const SWR_0_4: &[u8] =
    b"SWR0000000000000004W1       SMITH                                        ANNA                           CA";

/// The publisher's territories after a header and two records.
pub const SPT_0_3: &[u8] = b"SPT0000000000000003P1             050001000010000I2136 001";

/// An alternative title after a writer.
pub const ALT_0_2: &[u8] =
    b"ALT0000000000000002BLUE RIVERS                                                 AT";

/// The title of the work that an excerpt is taken from, after three records.
pub const EWT_0_3: &[u8] = b"EWT0000000000000003RIVER SUITE";

/// IND, ARI and NPA, which are carried as text.
pub const IND_0_1: &[u8] = b"IND0000000000000001GUITAR";

pub const IND_0_2: &[u8] = b"IND0000000000000002GUITAR";

pub const IND_0_3: &[u8] = b"IND0000000000000003GUITAR";

pub const ARI_0_0: &[u8] = b"ARI0000000000000000NOTE";

pub const ARI_0_1: &[u8] = b"ARI0000000000000001NOTE";

pub const ARI_0_3: &[u8] = b"ARI0000000000000003NOTE";

pub const NPA_0_1: &[u8] = b"NPA0000000000000001NAME";

pub const NPA_0_4: &[u8] = b"NPA0000000000000004NAME";

/// Records of an acknowledgement's copy: a work after ACK, and after ACK and MSG, and an agreement.
pub const NWR_0_1: &[u8] =
    b"NWR0000000000000001BLUE RIVER                                                    W0001                                        POP             ORI";

pub const NWR_0_2: &[u8] =
    b"NWR0000000000000002BLUE RIVER                                                    W0001                                        POP             ORI";

pub const AGR_0_1: &[u8] = b"AGR0000000000000001AGR0001                     OS";

/// MSG, record 3 of transaction 0.
pub const MSG_0_3: &[u8] = b"MSG0000000000000003F           F   TITLE CHANGED";
