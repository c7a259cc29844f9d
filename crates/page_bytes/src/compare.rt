// Where two runs of bytes begin to differ.
ghost use Rattle.std.specs.Prelude.{◌≡◌, ◌≤◌, length};
ghost use Rattle.page_bytes.specs.Pages.{first_wrong};

/// How many bytes two pages begin with alike.
#[tactic(auto, using(crate::proofs::Alike::all_alike))]
pub fn first_wrong(bytes: &[u8], spelling: &[u8]) -> usize
    requires { length bytes.now ≡ length spelling.now }
    ensures value { result ≡ first_wrong bytes.now spelling.now }
    ensures range { result ≤ length bytes.now }
    ensures same { length bytes.now ≤ result → bytes.now ≡ spelling.now }
{
    let mut at = 0;
    while at < bytes.len() && bytes[at] == spelling[at] {
        at += 1;
    }
    at
}
