// The line that answers a record: how many profiles were added, and each of them.

ghost use Rattle.std.specs.Prelude.{◌≡◌, ◌+◌, ◌*◌, ◌≤◌, length};
ghost use Rattle.std.specs.List.{flat_map};
ghost use Rattle.arrayvec.specs.ArrayVec.{array_vec_len};
ghost use Rattle.profile_lines.specs.Text.{Appends};
ghost use Rattle.profile_lines.specs.Fields.{profile_fields, profile_width};
ghost use Rattle.families_test.specs.Lines.{added_line, single_line};

use arrayvec::ArrayVec;
use candidates::Candidates;
use decimals::{DECIMAL_WIDTH, put_decimal};
use profile::Profile;
use profile_lines::{PROFILE_WIDTH, put, put_profile_fields};

// The longest line: how many there are, six profiles and a line feed.
pub const LINE_LENGTH: usize = DECIMAL_WIDTH + 6 * PROFILE_WIDTH + 1;

fn put_profiles(line: &mut ArrayVec<u8, LINE_LENGTH>, profiles: &[Profile])
    requires { array_vec_len line.old + profile_width * length profiles.now ≤ LINE_LENGTH }
    ensures { Appends line.old line.new (flat_map profile_fields profiles.now) (profile_width * length profiles.now) }
{
    for &q in profiles {
        put_profile_fields(line, q);
    }
}

// The profiles of a list that were added to those counted before.
#[tactic(auto, using(crate::proofs::ListLaws::part_taken), unfolding(crate::specs::Lines::added_line))]
pub fn added_line(c: Candidates, counted: usize) -> ArrayVec<u8, LINE_LENGTH>
    ensures { result.items ≡ added_line c counted }
{
    let end = c.current_index.min(6);
    let mut line = ArrayVec::new();
    put_decimal(&mut line, c.current_index.saturating_sub(counted) as u64);
    put_profiles(&mut line, &c.valid_profiles[counted.min(end)..end]);
    put(&mut line, b"\n");
    line
}

// The profile that the single step found, if any.
#[tactic(auto, unfolding(crate::specs::Lines::single_line))]
pub fn single_line(found: Result<Profile, Profile>) -> ArrayVec<u8, LINE_LENGTH>
    ensures { result.items ≡ single_line found }
{
    let mut line = ArrayVec::new();
    match found {
        Ok(profile) => {
            put(&mut line, b"1");
            put_profile_fields(&mut line, profile);
            put(&mut line, b"\n");
        }
        Err(_) => put(&mut line, b"0\n"),
    }
    line
}
