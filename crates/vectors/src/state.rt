// What the records run on.
use crate::views::View;
use crate::{image, views};
use std::alloc::{AllocError, Global};

// The worked cases' host, and a byte more, so that it can be passed too long.
const IMAGE_SPACE: usize = 1_048_577;

// 130 sectors: more than a call may move.
const BUFFER_SPACE: usize = 66_560;

// An image, the space of the buffers, and two views of the image by their slots.
#[derive(Drop)]
pub struct State {
    pub image: Vec<u8>,
    pub buffer: Vec<u8>,
    pub views: [View; 2],
}

impl State {
    // The views begin as all zeros.
    pub fn new(alloc: Global) -> Result<Self, AllocError> {
        let mut image = vec![in alloc; 0u8; IMAGE_SPACE]?;
        image::fill(&mut image, 0);
        let buffer = vec![in alloc; 0u8; BUFFER_SPACE]?;
        let views = [[0u64; views::SIZE]; 2];
        Ok(State {
            image,
            buffer,
            views,
        })
    }
}
