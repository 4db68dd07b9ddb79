// The fields of a response by their bytes and bits.
ghost use Rattle.std.specs.Prelude.{◌≡◌, ◌+◌, ◌≤◌, length};
ghost use Rattle.cells.specs.Cells.{part};
ghost use Rattle.rules.specs.Fields.{big_endian};
ghost use Rattle.rules.specs.Discovering.{header_from, tper_from, key_per_io_from, tper_in, key_per_io_in};

use rules::{
    DiscoveryHeader, HEADER_SIZE, KEY_PER_IO_SIZE, KeyPerIo, TPER_SIZE, Tper, VENDOR_SPECIFIC_SIZE,
};

// Two and four bytes from at, the highest first. (d) Lent as slices: a feature's code is read from one, the fields from arrays.
#[tactic(auto, using(crate::proofs::ReadingLaws::word_is))]
pub(crate) fn word(d: &[u8], at: usize) -> u16
    requires { at + 2 ≤ length d.now }
    ensures { result ≡ big_endian (part at 2 d.now) }
{
    u16::from_be_bytes([d[at], d[at + 1]])
}

#[tactic(auto, using(crate::proofs::ReadingLaws::dword_is))]
pub(crate) fn dword(d: &[u8], at: usize) -> u32
    requires { at + 4 ≤ length d.now }
    ensures { result ≡ big_endian (part at 4 d.now) }
{
    u32::from_be_bytes([d[at], d[at + 1], d[at + 2], d[at + 3]])
}

#[tactic(auto, unfolding(rules::specs::Discovering::header_from, cells::specs::Cells::part))]
pub(crate) fn header(d: &[u8; HEADER_SIZE]) -> DiscoveryHeader
    ensures { result ≡ header_from d.now }
{
    let mut vendor_specific = [0u8; VENDOR_SPECIFIC_SIZE];
    vendor_specific.copy_from_slice(&d[16..]);
    DiscoveryHeader {
        data_structure_revision: dword(d, 4),
        vendor_specific,
    }
}

#[tactic(auto, unfolding(rules::specs::Discovering::tper_from))]
fn tper_from(f: &[u8; TPER_SIZE]) -> Tper
    ensures { result ≡ tper_from f.now }
{
    let flags = f[4];
    Tper {
        version: f[2] / 16 % 16,
        com_id_mgmt_supported: flags / 64 % 2,
        streaming_supported: flags / 16 % 2,
        buffer_mgmt_supported: flags / 8 % 2,
        ack_nack_supported: flags / 4 % 2,
        async_supported: flags / 2 % 2,
        sync_supported: flags % 2,
    }
}

#[tactic(auto, unfolding(rules::specs::Discovering::key_per_io_from))]
fn key_per_io_from(f: &[u8; KEY_PER_IO_SIZE]) -> KeyPerIo
    ensures { result ≡ key_per_io_from f.now }
{
    let flags = f[16];
    KeyPerIo {
        feature_descriptor_version: f[2] / 16 % 16,
        ssc_minor_version: f[2] % 16,
        protocol_01_base_com_id: word(f, 4),
        protocol_01_number_of_com_ids: word(f, 6),
        protocol_03_base_com_id: word(f, 8),
        protocol_03_number_of_com_ids: word(f, 10),
        initial_pin_indicator: f[12],
        behavior_of_pin_upon_revert: f[13],
        number_of_admin_authorities: word(f, 14),
        replay_protection_enabled: flags / 32 % 2,
        replay_protection_supported: flags / 16 % 2,
        incorrect_key_detection_supported: flags / 8 % 2,
        shared_tweak_key_required: flags / 4 % 2,
        scope: flags / 2 % 2,
        enabled: flags % 2,
        maximum_key_uid_length: word(f, 17),
        kmip_key_injection_supported: f[19] % 2,
        rsa_oaep_supported: f[21] / 4 % 2,
        aes_gcm_supported: f[21] / 2 % 2,
        aes_kw_supported: f[21] % 2,
        aes_256_wrapping_key_supported: f[23] % 2,
        rsa4k_wrapping_key_supported: f[25] / 4 % 2,
        rsa3k_wrapping_key_supported: f[25] / 2 % 2,
        rsa2k_wrapping_key_supported: f[25] % 2,
        pki_kek_transport_supported: f[27] / 2 % 2,
        plaintext_kek_provisioning_supported: f[27] % 2,
        number_of_key_encryption_keys: dword(f, 32),
        total_number_of_key_tags: dword(f, 36),
        maximum_key_tags_per_namespace: word(f, 40),
        nonce_length: f[42],
    }
}

// A feature that is too short is told as absent.
pub(crate) fn tper(f: &[u8]) -> Option<Tper>
    ensures { result ≡ tper_in f.now }
{
    f.first_chunk::<TPER_SIZE>().map(tper_from)
}

pub(crate) fn key_per_io(f: &[u8]) -> Option<KeyPerIo>
    ensures { result ≡ key_per_io_in f.now }
{
    f.first_chunk::<KEY_PER_IO_SIZE>().map(key_per_io_from)
}
