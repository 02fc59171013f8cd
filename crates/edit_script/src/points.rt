ghost use Rattle.std.specs.Prelude.{◌≡◌, [], ◌∷◌, IfOk, IfSome, MatchOption, Some, pos};
ghost use Rattle.std.specs.List.{AllByRecursion};
ghost use Rattle.dgn_drawing.specs.WellFormed.{IsCoordinate};
ghost use Rattle.dgn_drawing.specs.NewElements.{IsPointFor};
ghost use Rattle.edit_script.specs.Words.{words_of};
ghost use Rattle.edit_script.specs.Points.{coordinate_named, numbers_of, point_of, point_named, for_axes, points_named, path_named, IsGiven, IsPath};

use crate::numbers::signed_number;
use crate::words::{first_piece, next_word};
use plane_geom::PointList;
use std::alloc::{AllocError, Global};

// A point, and for how many axes it is given.
#[derive(Drop)]
pub struct PointGiven {
    pub axes: u8,
    pub at: [i32; 3],
}

// Points, and for how many axes they are given.
#[derive(Drop)]
pub struct Path {
    pub axes: u8,
    pub points: PointList,
}

// The path that these bytes give: at least and at most so many points for the same number of axes.
pub fn read_path(
    alloc: Global,
    rest: &[u8],
    least: usize,
    most: usize,
) -> Result<Option<Path>, AllocError>
    ensures value { IfOk result (λ path. path ≡ path_named least most (words_of rest.now)) }
    ensures fits { IfOk result (λ path. IfSome path (IsPath least most)) }
{
    let Some((word, _)) = next_word(rest) else {
        return Ok(None);
    };
    let Some(first) = point(word) else {
        return Ok(None);
    };
    let Some(points) = read_points(alloc, rest, first.axes)? else {
        return Ok(None);
    };
    if least <= points.len() && points.len() <= most {
        Ok(Some(Path {
            axes: first.axes,
            points,
        }))
    } else {
        Ok(None)
    }
}

// The points of all words, each of them for so many axes.
fn read_points(alloc: Global, words: &[u8], axes: u8) -> Result<Option<PointList>, AllocError>
    ensures value { IfOk result (λ points. points ≡ points_named axes (words_of words.now)) }
    ensures fits { IfOk result (λ points. IfSome points (AllByRecursion (IsPointFor axes))) }
{
    let mut points = PointList::new(alloc);
    let mut left = words;
    'words: while let Some((word, behind)) = next_word(left) {
        let Some(at) = point_for(word, axes) else {
            return Ok(None);
        };
        points.push(at)?;
        left = behind;
    }
    Ok(Some(points))
}

// The point that a word spells, where it is given for so many axes.
fn point_for(word: &[u8], axes: u8) -> Option<[i32; 3]>
    ensures value { result ≡ for_axes axes (point_named word.now) }
    ensures fits { IfSome result (IsPointFor axes) }
{
    let given = point(word)?;
    if given.axes == axes {
        Some(given.at)
    } else {
        None
    }
}

// The point that a word spells: two numbers or three between commas.
pub fn point(word: &[u8]) -> Option<PointGiven>
    ensures value { result ≡ point_named word.now }
    ensures fits { IfSome result IsGiven }
{
    let (x, behind) = at_comma(word)?;
    let Some((y, z)) = at_comma(behind) else {
        return flat_point(x, behind);
    };
    match at_comma(z) {
        None => full_point(x, y, z),
        Some(_) => None,
    }
}

// The point of two words, along x and y.
fn flat_point(x: &[u8], y: &[u8]) -> Option<PointGiven>
    ensures value { result ≡ point_of 2 (coordinate_named x.now) (coordinate_named y.now) (Some (pos 0)) }
    ensures fits { IfSome result IsGiven }
{
    let x = coordinate(x)?;
    let y = coordinate(y)?;
    Some(PointGiven {
        axes: 2,
        at: [x, y, 0],
    })
}

// The point of three words, along x, y and z.
fn full_point(x: &[u8], y: &[u8], z: &[u8]) -> Option<PointGiven>
    ensures value { result ≡ point_of 3 (coordinate_named x.now) (coordinate_named y.now) (coordinate_named z.now) }
    ensures fits { IfSome result IsGiven }
{
    let x = coordinate(x)?;
    let y = coordinate(y)?;
    let z = coordinate(z)?;
    Some(PointGiven {
        axes: 3,
        at: [x, y, z],
    })
}

// The number of a point that a word spells.
fn coordinate(word: &[u8]) -> Option<i32>
    ensures value { result ≡ coordinate_named word.now }
    ensures fits { IfSome result IsCoordinate }
{
    let value = signed_number(word, 2147483648)?;
    if value <= 2147483647 {
        Some(value as i32)
    } else {
        None
    }
}

// What stands before the first comma of a word, and what stands behind it.
fn at_comma(word: &[u8]) -> Option<(&[u8], &[u8])>
    ensures { MatchOption result (numbers_of word.now ≡ word.now ∷ [])
        (λ r. numbers_of word.now ≡ r.0.now ∷ numbers_of r.1.now) }
{
    let (front, behind) = first_piece(word, b',');
    if front.len() == word.len() {
        None
    } else {
        Some((front, behind))
    }
}
