//! The names of the fields.
ghost use Rattle.std.specs.Prelude.{◌≡◌, ◌↔◌, Some, bytes_eq, option_copied};
ghost use Rattle.std.specs.List.{find};
ghost use Rattle.dci_fields.specs.declared.names.FieldName.{FieldName};
ghost use Rattle.dci_fields.specs.Words.{word_of, field_named, IsWordOf};

/// The name of a field (3GPP TS 38.212, 7.3.1.1 and 7.3.1.2): one variant for each word, and the identifier.
#[derive(Clone, Copy, Debug, Default, PartialEq, Eq)]
pub enum FieldName {
    /// The identifier of the format: uplink or downlink.
    #[default]
    Identifier,
    /// The frequency domain resource assignment.
    Fdra,
    /// The time domain resource assignment.
    Tdra,
    /// The frequency hopping flag.
    Hopping,
    /// The mapping of virtual to physical resource blocks.
    Vrb,
    /// The modulation and coding scheme.
    Mcs,
    /// The new data indicator.
    Ndi,
    /// The redundancy version.
    Rv,
    /// The HARQ process number.
    Harq,
    /// The downlink assignment index.
    Dai,
    /// The transmit power control command.
    Tpc,
    /// The uplink control channel resource.
    Pucch,
    /// The timing from the data to its HARQ feedback.
    Timing,
    /// The random access preamble index.
    Preamble,
    /// The indicator of the supplementary uplink.
    Supplementary,
    /// The index of a synchronization signal block.
    Ssb,
    /// The mask index of the random access occasions.
    Mask,
    /// Reserved bits.
    Reserved,
    /// The indicator of the bandwidth part.
    Bwp,
    /// The size of the bundles of physical resource blocks.
    Bundling,
    /// The rate matching indicator.
    RateMatch,
    /// The trigger of zero power reference signals.
    ZpCsiRs,
    /// The modulation and coding scheme of the second codeword.
    Mcs2,
    /// The new data indicator of the second codeword.
    Ndi2,
    /// The redundancy version of the second codeword.
    Rv2,
    /// The second downlink assignment index.
    Dai2,
    /// The indicator of the sounding resource.
    Sri,
    /// The precoding information and the number of layers.
    Precoding,
    /// The antenna ports.
    Ports,
    /// The transmission configuration indication.
    Tci,
    /// The sounding request.
    Srs,
    /// The request of channel state information.
    Csi,
    /// Which code block groups are sent.
    Cbgti,
    /// Whether code block groups are flushed.
    Flush,
    /// The association of phase tracking and demodulation reference signals.
    Ptrs,
    /// The indicator of the beta offset.
    Beta,
    /// The initialization of the demodulation reference signal.
    Dmrs,
    /// Whether there is data beside control information on the uplink.
    Ulsch,
}

/// The names that have a word.
const NAMES: [FieldName; 37] = [
    FieldName::Fdra,
    FieldName::Tdra,
    FieldName::Hopping,
    FieldName::Vrb,
    FieldName::Mcs,
    FieldName::Ndi,
    FieldName::Rv,
    FieldName::Harq,
    FieldName::Dai,
    FieldName::Tpc,
    FieldName::Pucch,
    FieldName::Timing,
    FieldName::Preamble,
    FieldName::Supplementary,
    FieldName::Ssb,
    FieldName::Mask,
    FieldName::Reserved,
    FieldName::Bwp,
    FieldName::Bundling,
    FieldName::RateMatch,
    FieldName::ZpCsiRs,
    FieldName::Mcs2,
    FieldName::Ndi2,
    FieldName::Rv2,
    FieldName::Dai2,
    FieldName::Sri,
    FieldName::Precoding,
    FieldName::Ports,
    FieldName::Tci,
    FieldName::Srs,
    FieldName::Csi,
    FieldName::Cbgti,
    FieldName::Flush,
    FieldName::Ptrs,
    FieldName::Beta,
    FieldName::Dmrs,
    FieldName::Ulsch,
];

impl FieldName {
    /// The word that names the field in texts; the identifier has none, and gives the empty one.
    pub fn word(&self) -> &[u8]
        ensures { result.now ≡ word_of self.now }
    {
        match self {
            FieldName::Identifier => b"",
            FieldName::Fdra => b"fdra",
            FieldName::Tdra => b"tdra",
            FieldName::Hopping => b"hopping",
            FieldName::Vrb => b"vrb",
            FieldName::Mcs => b"mcs",
            FieldName::Ndi => b"ndi",
            FieldName::Rv => b"rv",
            FieldName::Harq => b"harq",
            FieldName::Dai => b"dai",
            FieldName::Tpc => b"tpc",
            FieldName::Pucch => b"pucch",
            FieldName::Timing => b"timing",
            FieldName::Preamble => b"preamble",
            FieldName::Supplementary => b"supplementary",
            FieldName::Ssb => b"ssb",
            FieldName::Mask => b"mask",
            FieldName::Reserved => b"reserved",
            FieldName::Bwp => b"bwp",
            FieldName::Bundling => b"bundling",
            FieldName::RateMatch => b"rate_match",
            FieldName::ZpCsiRs => b"zp_csi_rs",
            FieldName::Mcs2 => b"mcs2",
            FieldName::Ndi2 => b"ndi2",
            FieldName::Rv2 => b"rv2",
            FieldName::Dai2 => b"dai2",
            FieldName::Sri => b"sri",
            FieldName::Precoding => b"precoding",
            FieldName::Ports => b"ports",
            FieldName::Tci => b"tci",
            FieldName::Srs => b"srs",
            FieldName::Csi => b"csi",
            FieldName::Cbgti => b"cbgti",
            FieldName::Flush => b"flush",
            FieldName::Ptrs => b"ptrs",
            FieldName::Beta => b"beta",
            FieldName::Dmrs => b"dmrs",
            FieldName::Ulsch => b"ulsch",
        }
    }
}

/// The name with this word, None exactly where no name but the identifier has it.
pub fn name_of(word: &[u8]) -> Option<FieldName>
    ensures named { result ≡ field_named word.now }
    ensures exactly { (name : FieldName) → (result ≡ Some name) ↔ IsWordOf name word.now }
{
    name_among(&NAMES, word).copied()
}

/// The first of some names that has this word.
fn name_among<'a>(names: &'a [FieldName], word: &[u8]) -> Option<&'a FieldName>
    ensures { option_copied result ≡ find (λ name. bytes_eq (word_of name) word.now) names.now }
{
    names.iter().find(|name| has_word(name, word))
}

/// Whether a name has this word.
fn has_word(name: &FieldName, word: &[u8]) -> bool
    ensures { result ≡ bytes_eq (word_of name.now) word.now }
{
    name.word() == word
}
