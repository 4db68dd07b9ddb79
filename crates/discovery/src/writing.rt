// The bytes of a response, part by part: each field in its place, cut to its width.
ghost use Rattle.std.specs.Prelude.{◌≡◌};
ghost use Rattle.rules.specs.Discovery.{header_bytes, tper_bytes, key_per_io_bytes};

use crate::finding::{KEY_PER_IO_CODE, TPER_CODE};
use rules::{
    DISCOVERY_SIZE, DiscoveryHeader, HEAD_SIZE, HEADER_SIZE, KEY_PER_IO_SIZE, KeyPerIo,
    LENGTH_SIZE, TPER_SIZE, Tper,
};

// Each length counts the bytes behind it.
const PARAMETER_LENGTH: u32 = (DISCOVERY_SIZE - LENGTH_SIZE) as u32;

const TPER_LENGTH: u8 = (TPER_SIZE - HEAD_SIZE) as u8;

const KEY_PER_IO_LENGTH: u8 = (KEY_PER_IO_SIZE - HEAD_SIZE) as u8;

#[tactic(auto, unfolding(rules::specs::Discovery::header_bytes, cells::specs::Cells::zeros))]
pub(crate) fn header_bytes(h: DiscoveryHeader) -> [u8; HEADER_SIZE]
    ensures { result ≡ header_bytes h }
{
    let mut bytes = [0u8; HEADER_SIZE];
    bytes[..4].copy_from_slice(&PARAMETER_LENGTH.to_be_bytes());
    bytes[4..8].copy_from_slice(&h.data_structure_revision.to_be_bytes());
    bytes[16..].copy_from_slice(&h.vendor_specific);
    bytes
}

#[tactic(auto, unfolding(rules::specs::Discovery::tper_bytes, cells::specs::Cells::zeros))]
pub(crate) fn tper_bytes(t: Tper) -> [u8; TPER_SIZE]
    ensures { result ≡ tper_bytes t }
{
    let mut bytes = [0u8; TPER_SIZE];
    bytes[..2].copy_from_slice(&TPER_CODE.to_be_bytes());
    bytes[2] = t.version % 16 * 16;
    bytes[3] = TPER_LENGTH;
    bytes[4] = t.com_id_mgmt_supported % 2 * 64
        + t.streaming_supported % 2 * 16
        + t.buffer_mgmt_supported % 2 * 8
        + t.ack_nack_supported % 2 * 4
        + t.async_supported % 2 * 2
        + t.sync_supported % 2;
    bytes
}

pub(crate) fn key_per_io_bytes(k: KeyPerIo) -> [u8; KEY_PER_IO_SIZE]
    ensures { result ≡ key_per_io_bytes k }
{
    let mut bytes = [0u8; KEY_PER_IO_SIZE];
    bytes[..2].copy_from_slice(&KEY_PER_IO_CODE.to_be_bytes());
    bytes[2] = k.feature_descriptor_version % 16 * 16 + k.ssc_minor_version % 16;
    bytes[3] = KEY_PER_IO_LENGTH;
    bytes[4..6].copy_from_slice(&k.protocol_01_base_com_id.to_be_bytes());
    bytes[6..8].copy_from_slice(&k.protocol_01_number_of_com_ids.to_be_bytes());
    bytes[8..10].copy_from_slice(&k.protocol_03_base_com_id.to_be_bytes());
    bytes[10..12].copy_from_slice(&k.protocol_03_number_of_com_ids.to_be_bytes());
    bytes[12] = k.initial_pin_indicator;
    bytes[13] = k.behavior_of_pin_upon_revert;
    bytes[14..16].copy_from_slice(&k.number_of_admin_authorities.to_be_bytes());
    bytes[16] = k.replay_protection_enabled % 2 * 32
        + k.replay_protection_supported % 2 * 16
        + k.incorrect_key_detection_supported % 2 * 8
        + k.shared_tweak_key_required % 2 * 4
        + k.scope % 2 * 2
        + k.enabled % 2;
    bytes[17..19].copy_from_slice(&k.maximum_key_uid_length.to_be_bytes());
    bytes[19] = k.kmip_key_injection_supported % 2;
    bytes[21] = k.rsa_oaep_supported % 2 * 4 + k.aes_gcm_supported % 2 * 2 + k.aes_kw_supported % 2;
    bytes[23] = k.aes_256_wrapping_key_supported % 2;
    bytes[25] = k.rsa4k_wrapping_key_supported % 2 * 4
        + k.rsa3k_wrapping_key_supported % 2 * 2
        + k.rsa2k_wrapping_key_supported % 2;
    bytes[27] = k.pki_kek_transport_supported % 2 * 2 + k.plaintext_kek_provisioning_supported % 2;
    bytes[32..36].copy_from_slice(&k.number_of_key_encryption_keys.to_be_bytes());
    bytes[36..40].copy_from_slice(&k.total_number_of_key_tags.to_be_bytes());
    bytes[40..42].copy_from_slice(&k.maximum_key_tags_per_namespace.to_be_bytes());
    bytes[42] = k.nonce_length;
    bytes
}
