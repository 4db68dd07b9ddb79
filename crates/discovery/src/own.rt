// The drive's own fields, as docs/DISCOVERY.md lists them. What the model lacks is zero.
ghost use Rattle.std.specs.Prelude.{◌≡◌};
ghost use Rattle.rules.specs.Discovery.{own_header, own_tper, own_key_per_io};

use rules::{
    DiscoveryHeader, KeyPerIo, POOL_SLOTS, TAGS_MOST, Tper, UID_MOST, VENDOR_SPECIFIC_SIZE,
};

#[tactic(auto, unfolding(rules::specs::Discovery::own_header, cells::specs::Cells::zeros))]
pub(crate) fn header() -> DiscoveryHeader
    ensures { result ≡ own_header }
{
    DiscoveryHeader {
        data_structure_revision: 1,
        vendor_specific: [0u8; VENDOR_SPECIFIC_SIZE],
    }
}

#[tactic(auto, unfolding(rules::specs::Discovery::own_tper))]
pub(crate) fn tper() -> Tper
    ensures { result ≡ own_tper }
{
    Tper {
        version: 1,
        com_id_mgmt_supported: 0,
        streaming_supported: 0,
        buffer_mgmt_supported: 0,
        ack_nack_supported: 0,
        async_supported: 0,
        sync_supported: 0,
    }
}

#[tactic(auto, unfolding(rules::specs::Discovery::own_key_per_io))]
pub(crate) fn key_per_io() -> KeyPerIo
    ensures { result ≡ own_key_per_io }
{
    KeyPerIo {
        feature_descriptor_version: 1,
        ssc_minor_version: 0,
        protocol_01_base_com_id: 0,
        protocol_01_number_of_com_ids: 0,
        protocol_03_base_com_id: 0,
        protocol_03_number_of_com_ids: 0,
        initial_pin_indicator: 0,
        behavior_of_pin_upon_revert: 0,
        number_of_admin_authorities: 0,
        replay_protection_enabled: 0,
        replay_protection_supported: 0,
        incorrect_key_detection_supported: 1,
        shared_tweak_key_required: 1,
        scope: 0,
        enabled: 1,
        maximum_key_uid_length: UID_MOST as u16,
        kmip_key_injection_supported: 1,
        rsa_oaep_supported: 0,
        aes_gcm_supported: 0,
        aes_kw_supported: 1,
        aes_256_wrapping_key_supported: 1,
        rsa4k_wrapping_key_supported: 0,
        rsa3k_wrapping_key_supported: 0,
        rsa2k_wrapping_key_supported: 0,
        pki_kek_transport_supported: 0,
        plaintext_kek_provisioning_supported: 0,
        number_of_key_encryption_keys: 1,
        total_number_of_key_tags: POOL_SLOTS as u32,
        maximum_key_tags_per_namespace: TAGS_MOST as u16,
        nonce_length: 0,
    }
}
