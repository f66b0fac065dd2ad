// Forward segmentation into grapheme clusters (UAX #29): the cluster at a place, with its width and the scalar after it.
ghost use Rattle.std.specs.Prelude.{◌≡◌, ◌+◌, ◌<◌, length};
ghost use Rattle.text.specs.Cluster.{clusters};
ghost use Rattle.text.specs.Segmentation.{first_of, first_size, NextCluster, NextClusterReady, never_joins_before, one_byte_cluster};
ghost use Rattle.text.specs.Class.Code.{profile_of};
ghost use Rattle.text.specs.TextParts.{text_at, Measured};

use super::class::{Profile, is_printable};
use super::rules::Before;
use super::scalar::{Scalar, scalar_at};
use super::utf8::byte_at;
use super::{BytePlace, Column, TextPart};

// A cluster, and the scalar after it.
#[derive(Clone, Copy)]
pub struct ClusterStep {
    pub part: TextPart,
    pub next: Option<Scalar>,
}

// The cluster that begins at a place with the scalar u, scalar by scalar.
#[inline(always)]
fn walk_cluster(profile: Profile, s: &[u8], at: usize, u: Option<Scalar>) -> ClusterStep
    requires { NextClusterReady (profile_of profile) s.now at u }
    ensures { NextCluster (profile_of profile) s.now at result }
{
    let Some(first) = u else {
        return ClusterStep {
            part: TextPart {
                end: BytePlace(at),
                width: Column(0),
            },
            next: None,
        };
    };
    let mut p = at + first.len();
    let mut w = first.width();
    let mut before = Before::Scalar(first.class());
    while p < s.len() {
        let next = scalar_at(profile, s, p);
        let part = TextPart {
            end: BytePlace(p),
            width: Column(w),
        };
        let Some(v) = next else {
            return ClusterStep { part, next };
        };
        let c = v.class();
        if !before.joins(c) {
            return ClusterStep { part, next };
        }
        before = before.and(c);
        p += v.len();
        w += v.width();
    }
    ClusterStep {
        part: TextPart {
            end: BytePlace(p),
            width: Column(w),
        },
        next: None,
    }
}

// The same, a printable byte before another told first. To walk through a text, hand `next` on: each scalar is decoded once.
#[inline(always)]
pub fn next_cluster(profile: Profile, s: &[u8], at: BytePlace, u: Option<Scalar>) -> ClusterStep
    requires { NextClusterReady (profile_of profile) s.now at.0 u }
    ensures { NextCluster (profile_of profile) s.now at.0 result }
{
    if let Some(first) = u {
        if first.is_printable() & is_printable(byte_at(s, at.0 + 1)) {
            return ClusterStep {
                part: TextPart {
                    end: BytePlace(at.0 + 1),
                    width: Column(1),
                },
                next: u,
            };
        }
    }
    walk_cluster(profile, s, at.0, u)
}

// The cluster at a place; nothing where a damaged byte stands there.
pub fn cluster(profile: Profile, text: &[u8], at: BytePlace) -> TextPart
    requires { at.0 < length text.now }
    ensures { Measured (profile_of profile) text.now at.0 (first_of (clusters (profile_of profile) (text_at text.now at.0))) result }
{
    if is_printable(byte_at(text, at.0)) {
        if is_printable(byte_at(text, at.0 + 1)) {
            return TextPart {
                end: BytePlace(at.0 + 1),
                width: Column(1),
            };
        }
    }
    walk_cluster(profile, text, at.0, scalar_at(profile, text, at.0)).part
}

// Is the byte at a place a cluster by itself: a control below 20, CR apart, or a byte below 80 before another or the end?
fn is_one_byte_cluster(s: &[u8], at: usize) -> bool
    requires { at < length s.now }
    ensures { result ≡ one_byte_cluster s.now at }
{
    let a = s[at] as u32;
    if 0x80 <= a {
        return false;
    }
    if a < 0x20 {
        return a != 0x0D;
    }
    byte_at(s, at + 1) < 0x80
}

// Is it a byte below 80, LF apart? No rule joins it to what stands before.
pub(crate) fn never_joins_before(b: u32) -> bool
    ensures { result ≡ never_joins_before b }
{
    (b < 0x80) & (b != 0x0A)
}

// The end of the cluster at a place, by its scalars. It is called: drawn into the loop of `convert` it slows the clusters of one byte.
#[inline(never)]
fn walked_end(profile: Profile, s: &[u8], at: usize) -> usize
    requires { at < length s.now }
    ensures { result ≡ at + first_size (profile_of profile) (text_at s.now at) }
{
    let u = scalar_at(profile, s, at);
    let Some(first) = u else {
        return at;
    };
    let p = at + first.len();
    if never_joins_before(byte_at(s, p)) {
        return p;
    }
    walk_cluster(profile, s, at, u).part.end.0
}

// The end of the cluster at a place, which is the place where a damaged byte stands there.
pub fn cluster_end(profile: Profile, s: &[u8], at: usize) -> usize
    requires { at < length s.now }
    ensures { result ≡ at + first_size (profile_of profile) (text_at s.now at) }
{
    if is_one_byte_cluster(s, at) {
        return at + 1;
    }
    walked_end(profile, s, at)
}

// The same for any place: the next boundary, which is the place where a damaged byte or nothing stands there.
pub fn next_boundary(profile: Profile, s: &[u8], at: usize) -> usize
    ensures { result ≡ at + first_size (profile_of profile) (text_at s.now at) }
{
    if at < s.len() {
        return cluster_end(profile, s, at);
    }
    at
}
