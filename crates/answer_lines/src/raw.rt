//! Labels as bytes, a group at once.

ghost use Rattle.std.specs.Prelude.{◌≡◌, ◌≤◌, ◌++◌, length, OnOk, OnErr};
ghost use Rattle.answer_lines.specs.Raw.{raw_labels};

use route_walks::Memory;

const RAW_GROUP_LABELS: usize = 64;

const LABEL_BYTES: usize = 8;

const RAW_GROUP_BYTES: usize = RAW_GROUP_LABELS * LABEL_BYTES;

fn put_raw_group(out: &mut Vec<u8>, bytes: &mut [u8], labels: &[u64]) -> Result<(), Memory>
    requires room { length bytes.old ≡ RAW_GROUP_BYTES }
    requires group { length labels.now ≤ RAW_GROUP_LABELS }
    ensures room { length bytes.new ≡ RAW_GROUP_BYTES }
    ensures ok { OnOk result (out.new.items ≡ out.old.items ++ raw_labels labels.now) }
    ensures err { OnErr result (out.new.items ≡ out.old.items) }
{
    let mut end = 0;
    for label in labels {
        bytes[end..end + LABEL_BYTES].copy_from_slice(&label.to_le_bytes());
        end += LABEL_BYTES;
    }
    out.extend_from_slice(&bytes[..end])?;
    Ok(())
}

/// Appends each label as 8 bytes, little-endian.
pub fn put_raw(out: &mut Vec<u8>, labels: &[u64]) -> Result<(), Memory>
    ensures ok { OnOk result (out.new.items ≡ out.old.items ++ raw_labels labels.now) }
    ensures err { OnErr result (out.new.items ≡ out.old.items) }
{
    let before = out.len();
    let mut bytes = [0u8; RAW_GROUP_BYTES];
    let mut rest = labels;
    while !rest.is_empty() {
        let (group, more) = rest.split_at(rest.len().min(RAW_GROUP_LABELS));
        if put_raw_group(out, &mut bytes, group).is_err() {
            out.truncate(before);
            return Err(Memory);
        }
        rest = more;
    }
    Ok(())
}
