// The points' lines: counted first, with no number worked out, and stored once it is known that all are well formed and
// fit.
ghost use Rattle.std.specs.Prelude.{◌≡◌, drop};
ghost use Rattle.cloud.specs.Format.{body};
ghost use Rattle.cloud.specs.Answers.{counted};
ghost use Rattle.cloud.specs.Inner.Ready.{Fitting, laid_out};

use cloud_lines::reader::store_lines;
use cloud_lines::skipping::skip_point;
use numerals::MalformedLine;

// How many lines there are.
pub fn count_points(s: &[u8], from: usize) -> Result<usize, MalformedLine>
    ensures { result ≡ counted (body (drop from s.now)) }
{
    let mut count = 0;
    let mut at = from;
    while at < s.len() {
        let Some(next) = skip_point(s, at) else {
            return Err(MalformedLine { line: count + 1 });
        };
        count += 1;
        at = next;
    }
    Ok(count)
}

// Both slices hold the points' numbers in front; what lies past them stays. One reader is carried through the lines.
pub fn store_points(s: &[u8], from: usize, count: usize, points: &mut [f32], normals: &mut [f32])
    requires { Fitting s.now from count points.old normals.old }
    ensures { (points.new
        ≡ laid_out (λ p. p.position) (body (drop from s.now)) points.old)
        × (normals.new
        ≡ laid_out (λ p. p.normal) (body (drop from s.now)) normals.old) }
{
    store_lines(s, from, count, points, normals);
}
