// What a host finds in a discovery response, as numbers at the places that include/tuffaleen.h names.
ghost use Rattle.std.specs.Prelude.{◌≡◌, ◌++◌, ◌≤◌, length, drop};
ghost use Rattle.tuffaleen_c.specs.Host.{fields_size, header_numbers, tper_numbers, found_numbers, key_per_io_numbers, numbers_of};

use rules::{Discovered, DiscoveryHeader, KeyPerIo, Tper, VENDOR_SPECIFIC_SIZE};

// A place for each number of the header, and of each feature one more: whether it was found.
const HEADER_PLACES: usize = 1 + VENDOR_SPECIFIC_SIZE;

const TPER_PLACES: usize = 8;

const KEY_PER_IO_PLACES: usize = 31;

const TPER_AT: usize = HEADER_PLACES;

const KEY_PER_IO_AT: usize = TPER_AT + TPER_PLACES;

pub(crate) const FIELDS_SIZE: usize = KEY_PER_IO_AT + KEY_PER_IO_PLACES;

// (b) By a loop: over `map` of the vendor's array each byte goes through memory by itself, and a whole call takes three times as long.
fn header_numbers(h: DiscoveryHeader) -> [u32; HEADER_PLACES]
    ensures { result ≡ header_numbers h }
{
    let mut numbers = [0; HEADER_PLACES];
    numbers[0] = h.data_structure_revision;
    for (i, byte) in h.vendor_specific.iter().enumerate() {
        numbers[1 + i] = u32::from(*byte);
    }
    numbers
}

#[tactic(auto, unfolding(crate::specs::Host::tper_numbers, cells::specs::Cells::zeros))]
fn tper_numbers(t: Option<Tper>) -> [u32; TPER_PLACES]
    ensures { result ≡ tper_numbers t }
{
    match t {
        None => [0; TPER_PLACES],
        Some(t) => [
            1,
            u32::from(t.version),
            u32::from(t.com_id_mgmt_supported),
            u32::from(t.streaming_supported),
            u32::from(t.buffer_mgmt_supported),
            u32::from(t.ack_nack_supported),
            u32::from(t.async_supported),
            u32::from(t.sync_supported),
        ],
    }
}

#[tactic(auto, unfolding(crate::specs::Host::found_numbers))]
fn found_numbers(k: KeyPerIo) -> [u32; KEY_PER_IO_PLACES]
    ensures { result ≡ found_numbers k }
{
    [
        1,
        u32::from(k.feature_descriptor_version),
        u32::from(k.ssc_minor_version),
        u32::from(k.protocol_01_base_com_id),
        u32::from(k.protocol_01_number_of_com_ids),
        u32::from(k.protocol_03_base_com_id),
        u32::from(k.protocol_03_number_of_com_ids),
        u32::from(k.initial_pin_indicator),
        u32::from(k.behavior_of_pin_upon_revert),
        u32::from(k.number_of_admin_authorities),
        u32::from(k.replay_protection_enabled),
        u32::from(k.replay_protection_supported),
        u32::from(k.incorrect_key_detection_supported),
        u32::from(k.shared_tweak_key_required),
        u32::from(k.scope),
        u32::from(k.enabled),
        u32::from(k.maximum_key_uid_length),
        u32::from(k.kmip_key_injection_supported),
        u32::from(k.rsa_oaep_supported),
        u32::from(k.aes_gcm_supported),
        u32::from(k.aes_kw_supported),
        u32::from(k.aes_256_wrapping_key_supported),
        u32::from(k.rsa4k_wrapping_key_supported),
        u32::from(k.rsa3k_wrapping_key_supported),
        u32::from(k.rsa2k_wrapping_key_supported),
        u32::from(k.pki_kek_transport_supported),
        u32::from(k.plaintext_kek_provisioning_supported),
        k.number_of_key_encryption_keys,
        k.total_number_of_key_tags,
        u32::from(k.maximum_key_tags_per_namespace),
        u32::from(k.nonce_length),
    ]
}

#[tactic(auto, unfolding(cells::specs::Cells::zeros))]
fn key_per_io_numbers(k: Option<KeyPerIo>) -> [u32; KEY_PER_IO_PLACES]
    ensures { result ≡ key_per_io_numbers k }
{
    match k {
        None => [0; KEY_PER_IO_PLACES],
        Some(k) => found_numbers(k),
    }
}

// All of them, at the front of the fields.
pub(crate) fn put(fields: &mut [u32], found: Discovered)
    requires { fields_size ≤ length fields.old }
    ensures { fields.new ≡ numbers_of found ++ drop fields_size fields.old }
{
    fields[..TPER_AT].copy_from_slice(&header_numbers(found.header));
    fields[TPER_AT..KEY_PER_IO_AT].copy_from_slice(&tper_numbers(found.tper));
    fields[KEY_PER_IO_AT..FIELDS_SIZE].copy_from_slice(&key_per_io_numbers(found.key_per_io));
}
